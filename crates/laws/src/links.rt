//! Laws of loaded programs. Each law is the contract of a function with an empty body.
ghost use Rattle.laws.specs.OperandPlaces.{OperandsAreThere, JumpsArrive};
ghost use Rattle.laws.specs.ReachedInstructions.{ReachedInstructionsAreKept, SurePlacesBegin};
ghost use Rattle.laws.specs.CleanPrograms.{CleanObjectsMakeCleanPrograms};
ghost use Rattle.laws.specs.{Instructions.InstructionsAreThere};

/// Linking preserves instructions: wherever an instruction begins in the text of an object, it is in the linked text too, if its first
/// word is not relocated and the object's text does not end within it. The law requires nothing of any other word, so arguments of
/// `sys`, tables of addresses and other data in text do not matter. (ld(1), the handbook of the PDP-11/70)
///
/// - `instructions`: in any link, also with `-r` or `-s`, the file's text has at the place of that word the same operation, modes,
///   registers and numbers. An operand word is the operand word of the object, relocated.
/// - `operands`: by the addressing of the first word, each operand that has a word is the address of the byte to which it refers in
///   its object: a byte of a segment of that object, or one so far beyond a name, wherever the name is defined. The pc bit of the
///   relocation word has to suit the mode, and is set in modes 67 and 77 alone. A word of these modes that is not relocated counts as
///   a distance within the text. The byte is loaded in the space in which the machine looks, if that space has its segment: for `jmp`,
///   `jsr`, `mfpi` and `mtpi` in modes 37 and 67 the space of instructions, and else that of data. For a name the link has to keep symbols. Without
///   `-r` the operand is then so far beyond the value of the name, and if no name is multiply defined, so far beyond its definition.
/// - `jumps`: so in a link that keeps symbols, and if no name is multiply defined, `jmp` and `jsr` of a name by modes 37 and 67 reach
///   its definition in the space of instructions. With split spaces a byte is there only if it is of text.
pub fn instruction_law()
    ensures instructions { InstructionsAreThere }
    ensures operands { OperandsAreThere }
    ensures jumps { JumpsArrive }
{}

/// What it means for a program that nothing is suspicious for sure in an object: that `v7-explain` reports nothing odd of its instructions
/// without "if this is", as `suspicions` defines it. (ld(1), the handbook of the PDP-11/70; what is suspicious: own choice)
///
/// - `reached`: each instruction at a sure place of the object that is not cut is in the program, by `instructions` of `instruction_law`:
///   its first word is not relocated. Each operand that has a word is the address of the byte to which its relocation word refers, by
///   `operands` of `instruction_law`: the pc bit is set in modes 67 and 77 alone. A word that is not relocated is a distance within the
///   text in these modes, and in others a number, which the program has too. The law says nothing of `$N` with the pc bit.
/// - `sure`: an instruction or a system call begins at each sure place, and is not cut.
pub fn reached_instruction_law()
    ensures reached { ReachedInstructionsAreKept }
    ensures sure { SurePlacesBegin }
{}

/// Clean objects make a clean program. An object is clean if `v7-explain -c -t` says nothing odd of its instructions for sure, and its jumps
/// and calls refer to text. Each `jsr` and `jmp` by modes 37 or 67, at a place that `-t` reaches, has to refer to the object's own text or
/// its end, or to the name of a text symbol of one of the objects, and to no byte beyond it. After `sys fork` the parent's word has to be
/// in the text, or the first one after it. The entry point has to be 0 or a text symbol. A line may lead to the end of its text, where the
/// next one begins. (ld(1), the handbook of the PDP-11/70; what is suspicious and what is reached: own choice)
///
/// The law is about any link of such objects that keeps symbols, in which no name is multiply defined. Follow the program from its entry
/// point: to the line after an instruction that lets control pass, to the target of a branch, and to that of a `jsr` or `jmp` by modes 37
/// and 67. Each place that is reached so is a place of one of the objects that `-t` reaches. Its instruction is in the program as by
/// `reached_instruction_law`, with the operands that the object refers to. The way ends at a `jsr` whose link is not the pc, since nobody
/// knows whether control comes back to the next word, though its target is followed; and at an instruction of the commercial set.
pub fn clean_law()
    ensures { CleanObjectsMakeCleanPrograms }
{}
