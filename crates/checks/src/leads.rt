//! The addresses to which a line leads.
ghost use Rattle.std.specs.{Prelude.{◌≡◌, ◌<◌, ◌≤◌, ◌+◌, ◌*◌, length, slice_get}, List.list_any};
ghost use Rattle.instructions.specs.UnixLines.{unix_length};
ghost use Rattle.checks.specs.Reached.{is_pc_itself, only_reads, ends_with_pc, counts_down, may_write_pc, passes, is_csv, is_external_csv, is_csv_at, refers_to_csv, calls_csv, flows, is_promised, may_leave, is_between, is_followed, takes_more, goes_on, next_of, parent_of, branch_of, is_own_distance, is_own_address, jump_by, jump};

use crate::evidence::Evidence;
use aout_core::{File, Reloc, Segment, Symbol};
use instructions::{
    Addressing, Instruction, Line, Mode, Operand, Operation, Register, SystemCall, UnixLine,
    branch_back_target, branch_target,
};

/// The address of a place of the text.
pub(crate) fn address_of(file: &File, place: usize) -> u16
    requires { place < length file.now.text_words }
    ensures { result ≡ 2 * place }
{
    let is_inside = place < file.text_words().len();
    prove!(is_inside);
    (2 * place) as u16
}

/// The relocation word of a word of text, if the file has relocation.
pub(crate) fn reloc_at(file: &File, place: usize) -> Option<Reloc>
    ensures { result ≡ slice_get file.now.text_reloc place }
{
    file.text_reloc().get(place).copied()
}

fn is_pc_itself(operand: Option<Operand>) -> bool
    ensures { result ≡ is_pc_itself operand }
{
    matches!(
        operand,
        Some(Operand::General(Mode::Direct, Register::Pc) | Operand::Register(Register::Pc))
    )
}

/// Whether the last operand is only read.
fn only_reads(operation: Operation) -> bool
    ensures { result ≡ only_reads operation }
{
    use Operation::*;
    matches!(operation, Cmp | Cmpb | Bit | Bitb | Tst | Tstb)
}

/// Whether the pc itself is the last operand, or sp is, with the pc as its second register.
fn ends_with_pc(first: Option<Operand>, second: Option<Operand>) -> bool
    ensures { result ≡ ends_with_pc first second }
{
    match second {
        Some(Operand::Register(Register::Sp)) => true,
        Some(operand) => is_pc_itself(Some(operand)),
        None => is_pc_itself(first),
    }
}

/// Whether an operand counts the pc down.
fn counts_down(operand: Option<Operand>) -> bool
    ensures { result ≡ counts_down operand }
{
    matches!(
        operand,
        Some(Operand::General(Mode::Decrement | Mode::DecrementDeferred, Register::Pc))
    )
}

/// Whether an instruction may write the pc by an operand.
fn may_write_pc(instruction: &Instruction) -> bool
    ensures { result ≡ may_write_pc instruction.now }
{
    counts_down(instruction.first)
        || counts_down(instruction.second)
        || (ends_with_pc(instruction.first, instruction.second)
            && !only_reads(instruction.row.operation))
}

/// Whether control comes to the line after an instruction, which may come back if it calls.
fn passes(operation: Operation, comes_back: bool) -> bool
    ensures { result ≡ passes operation comes_back }
{
    use Operation::*;
    match operation {
        Jsr => comes_back,
        Br | Jmp | Rts | Rti | Rtt | Halt | Mark | Bpt | Iot | Emt | Sys | Csm | Commercial =>
            false,
        _ => true,
    }
}

/// Whether a word from the pc stays within the text, by its relocation word if it has one.
fn is_own_distance(reloc: Option<Reloc>) -> bool
    ensures { result ≡ is_own_distance reloc }
{
    match reloc {
        Some(reloc) => reloc.0 % 0o20 == 0 || reloc.0 % 0o20 == 3,
        None => true,
    }
}

/// Whether a symbol has the name `csv`.
fn is_csv(symbol: &Symbol) -> bool
    ensures { result ≡ is_csv symbol.now }
{
    symbol.name.as_bytes() == b"csv".as_slice()
}

/// Whether a relocation word refers to the external `csv`, from the pc.
pub(crate) fn is_external_csv(file: &File, reloc: Option<Reloc>) -> bool
    ensures { result ≡ is_external_csv file.now reloc }
{
    let Some(reloc) = reloc else {
        return false;
    };
    match file.symbols().get(usize::from(reloc.number())) {
        Some(symbol) => reloc.0 % 0o20 == 0o11 && is_csv(symbol),
        None => false,
    }
}

/// Whether `csv` is a symbol of text in a file, and has an address.
fn has_csv_at(file: &File, address: u16) -> bool
    ensures { result ≡ list_any (is_csv_at address) file.now.symbols }
{
    file.symbols().iter().any(|symbol| {
        symbol.is_of(Segment::TextSeg) && symbol.value == address && is_csv(symbol)
    })
}

/// Whether a word from the pc, before the address `next`, refers to `csv`.
fn refers_to_csv(file: &File, reloc: Option<Reloc>, next: u32, word: u16) -> bool
    requires { next < 0o400000 }
    ensures { result ≡ refers_to_csv file.now reloc next word }
{
    let address = ((u32::from(word) + next) % 0o200000) as u16;
    is_external_csv(file, reloc) || (is_own_distance(reloc) && has_csv_at(file, address))
}

/// Whether `jsr r5,csv` is at a place.
pub(crate) fn calls_csv(file: &File, place: usize) -> bool
    requires { place < 32768 }
    ensures { result ≡ calls_csv file.now place }
{
    let words = file.text_words();
    let word = words.get(place + 1).copied().unwrap_or(0);
    matches!(words.get(place).copied(), Some(0o4567))
        && refers_to_csv(
            file,
            reloc_at(file, place + 1),
            (2 * place + 4) as u32,
            word,
        )
}

/// Whether control comes for sure to the line after the instruction at a place.
pub(crate) fn flows(file: &File, place: usize, instruction: &Instruction) -> bool
    requires { place < 32768 }
    ensures { result ≡ flows file.now place instruction.now }
{
    let comes_back = is_pc_itself(instruction.first) || calls_csv(file, place);
    !may_write_pc(instruction) && passes(instruction.row.operation, comes_back)
}

/// Whether all of the text is instructions.
pub(crate) fn is_promised(evidence: Evidence) -> bool
    ensures { result ≡ is_promised evidence }
{
    matches!(evidence, Evidence::Promise)
}

/// Whether control may leave by an instruction, and never come to the line after it.
fn may_leave(instruction: &Instruction) -> bool
    ensures { result ≡ may_leave instruction.now }
{
    branch_of(0, instruction.first).is_some()
        || branch_of(0, instruction.second).is_some()
        || (instruction.row.operation.jumps() && is_pc_itself(instruction.first))
}

/// Whether a symbol of text has an address between these in a file.
fn has_between(file: &File, low: usize, high: usize) -> bool
    ensures { result ≡ list_any (is_between low high) file.now.symbols }
{
    file.symbols().iter().any(|symbol| {
        let value = usize::from(symbol.value);
        symbol.is_of(Segment::TextSeg) && low < value && value < high
    })
}

/// Whether all of the text is instructions, and no symbol of text is within the line at a place.
fn is_followed(evidence: Evidence, file: &File, place: usize, line: &UnixLine) -> bool
    requires { place + unix_length line.now < 32768 }
    ensures { result ≡ is_followed evidence file.now place line.now }
{
    is_promised(evidence) && !has_between(file, 2 * place, 2 * (place + line.length()))
}

/// Whether an instruction may have operands in the words after its line.
fn takes_more(operation: Operation) -> bool
    ensures { result ≡ takes_more operation }
{
    matches!(operation, Operation::Commercial)
}

/// Whether the line at a place leads to the one after it.
fn goes_on(evidence: Evidence, file: &File, place: usize, line: &UnixLine) -> bool
    requires { place + unix_length line.now < 32768 }
    ensures { result ≡ goes_on evidence file.now place line.now }
{
    let is_flow = matches!(evidence, Evidence::Flow);
    match line {
        UnixLine::Machine(Line::Plain(_)) => false,
        UnixLine::Machine(Line::Decoded(instruction, _, _)) => {
            (!(is_flow && may_leave(instruction)) && flows(file, place, instruction))
                || (is_followed(evidence, file, place, line)
                    && !takes_more(instruction.row.operation))
        }
        UnixLine::Call(row) => {
            (!is_flow && !matches!(row.call, SystemCall::Exit | SystemCall::Indir))
                || is_followed(evidence, file, place, line)
        }
    }
}

/// The address after the line at a place, if it goes on there.
pub(crate) fn next_of(evidence: Evidence, file: &File, place: usize, line: &UnixLine) -> Option<u16>
    requires { place + unix_length line.now < 32768 }
    ensures { result ≡ next_of evidence file.now place line.now }
{
    goes_on(evidence, file, place, line).then_some((2 * (place + line.length())) as u16)
}

/// The address at which the parent goes on, if the call at a place is fork.
pub(crate) fn parent_of(file: &File, place: usize, call: SystemCall) -> Option<u16>
    requires { place < 32768 }
    ensures { result ≡ parent_of file.now place call }
{
    match call {
        SystemCall::Fork if place + 2 < file.text_words().len() => {
            Some(address_of(file, place + 2))
        }
        _ => None,
    }
}

/// The address that a branch at an address goes to.
pub(crate) fn branch_of(address: u16, operand: Option<Operand>) -> Option<u16>
    ensures { result ≡ branch_of address operand }
{
    match operand {
        Some(Operand::Forward(offset)) => Some(branch_target(address, offset)),
        Some(Operand::Backward(offset)) => Some(branch_back_target(address, offset)),
        _ => None,
    }
}

/// Whether a word is an address of the text.
fn is_own_address(reloc: Option<Reloc>) -> bool
    ensures { result ≡ is_own_address reloc }
{
    match reloc {
        Some(reloc) => reloc.0 % 0o20 == 2,
        None => true,
    }
}

/// The address that a jump or a call goes to by its operand word; `next` is the address after the word.
fn jump_by(
    reloc: Option<Reloc>,
    next: u32,
    word: u16,
    addressing: Option<Addressing>,
) -> Option<u16>
    requires { next < 0o400000 }
    ensures { result ≡ jump_by reloc next word addressing }
{
    match addressing {
        Some(Addressing::Relative) if is_own_distance(reloc) => {
            Some(((u32::from(word) + next) % 0o200000) as u16)
        }
        Some(Addressing::Absolute) if is_own_address(reloc) => Some(word),
        _ => None,
    }
}

/// The address that an operand leads to, if its instruction jumps or calls; its word, if it has one, is at a place.
pub(crate) fn jump(
    file: &File,
    operation: Operation,
    place: usize,
    operand: Option<Operand>,
    word: Option<u16>,
) -> Option<u16>
    requires { place ≤ 32770 }
    ensures { result ≡ jump file.now operation place operand word }
{
    match operand {
        Some(Operand::General(mode, register)) if operation.jumps() => jump_by(
            reloc_at(file, place),
            (2 * place + 2) as u32,
            word.unwrap_or(0),
            mode.addressing(register),
        ),
        _ => None,
    }
}
