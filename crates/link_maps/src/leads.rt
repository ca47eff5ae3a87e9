//! Where the words of an object lead.
ghost use Rattle.std.specs.Prelude.{◌≡◌, ◌++◌, slice_get, IfOk, OnOk};
ghost use Rattle.aout_core.specs.WellFormed.{kind_of};
ghost use Rattle.link_maps.specs.Leads.{aim_by, aim_of, branch_by, branch_of, instruction_by, is_from_pc, leads, leads_of, leads_to};
ghost use Rattle.link_maps.specs.Leads.{operand_at, target_in, text_target, unmoved_aim};

use crate::references::{address_in, line_of};
use aout_core::{File, Kind, Part, Reloc, Segment, Symbol, pc_target};
use instructions::{
    Addressing, Instruction, Operand, branch_back_target, branch_target, is_relocated,
};
use std::alloc::{AllocError, Global};

/// Where a word leads.
#[derive(Clone, Copy, Debug)]
pub enum Aim {
    /// To the symbol with this number.
    Numbered(u16),
    /// To an address of a segment of the object.
    Addressed(Segment, u16),
}

/// A word that leads somewhere, by its place in its part in bytes.
#[derive(Clone, Copy, Debug)]
pub struct Lead {
    pub part: Part,
    pub offset: u16,
    pub aim: Aim,
    /// How many bytes beyond its aim the word leads.
    pub inside: u16,
}

/// Where a word with a relocation word leads, if it refers to an address. (a.out(5))
fn aim_by(reloc: Reloc, address: u16) -> Option<Aim>
    ensures { result ≡ aim_by (kind_of reloc) reloc address }
{
    match reloc.kind() {
        Some(Kind::External) => Some(Aim::Numbered(reloc.number())),
        Some(Kind::TextSeg) => Some(Aim::Addressed(Segment::TextSeg, address)),
        Some(Kind::DataSeg) => Some(Aim::Addressed(Segment::DataSeg, address)),
        Some(Kind::BssSeg) => Some(Aim::Addressed(Segment::BssSeg, address)),
        _ => None,
    }
}

/// Where an instruction at an address branches by an operand.
fn branch_by(address: u16, operand: Option<Operand>) -> Option<u16>
    ensures { result ≡ branch_by address operand }
{
    match operand {
        Some(Operand::Forward(offset)) => Some(branch_target(address, offset)),
        Some(Operand::Backward(offset)) => Some(branch_back_target(address, offset)),
        _ => None,
    }
}

/// Where an instruction at an address branches.
fn branch_of(address: u16, instruction: &Instruction) -> Option<u16>
    ensures { result ≡ branch_of address instruction.now }
{
    match branch_by(address, instruction.first) {
        Some(target) => Some(target),
        None => branch_by(address, instruction.second),
    }
}

/// The operand that has the word so many words after the first of an instruction.
fn operand_at(instruction: &Instruction, count: u16) -> Option<Operand>
    ensures { result ≡ operand_at instruction.now count }
{
    match instruction.first {
        Some(first) if first.takes_word() && count == 1 => Some(first),
        _ => instruction.second,
    }
}

/// Whether the machine adds the address after the word of an operand to it.
fn is_from_pc(operand: Option<Operand>) -> bool
    ensures { result ≡ is_from_pc operand }
{
    match operand {
        Some(Operand::General(mode, register)) => match mode.addressing(register) {
            Some(addressing) => addressing.counts_from_pc(),
            None => false,
        },
        _ => false,
    }
}

/// The instruction that the word at a place begins.
fn instruction_at(words: &[u16], place: usize) -> Option<Instruction>
    ensures { result ≡ instruction_by (slice_get words.now place) }
{
    Instruction::from_first_word(*words.get(place)?)
}

/// Where the word at an address leads, in an instruction that begins at `line`.
fn target_in(instruction: Option<Instruction>, line: u16, address: u16, word: u16) -> Option<u16>
    ensures { result ≡ target_in instruction line address word }
{
    let instruction = instruction?;
    if line == address {
        return branch_of(address, &instruction);
    }
    if is_from_pc(operand_at(&instruction, address.saturating_sub(line) / 2)) {
        Some(pc_target(word, address))
    } else {
        None
    }
}

/// Where a word of text leads that no link changes, by its line: the target of a branch, or an operand that counts from the pc. (as(1))
fn text_target(file: &File, line: u16, offset: u16, word: u16) -> Option<u16>
    ensures { result ≡ text_target file.now line offset word }
{
    let instruction = instruction_at(file.text_words(), usize::from(line / 2));
    target_in(instruction, line, offset, word)
}

/// Where a word of text leads in a linked file of this magic number, by its line, as far as it shows: the target of a branch, or the
/// address of an operand of mode 37, 67 or 77. With separate spaces only branches and jumps lead to text. (as(1))
pub(crate) fn linked_target(
    file: &File,
    segment: Segment,
    line: u16,
    offset: u16,
    word: u16,
) -> Option<u16> {
    let instruction = instruction_at(file.text_words(), usize::from(line / 2))?;
    let is_of_text = offset == line || instruction.row.operation.jumps();
    if file.header().magic == 0o411 && is_of_text != (segment == Segment::TextSeg) {
        return None;
    }
    if let Some(target) = text_target(file, line, offset, word) {
        return Some(target);
    }
    match operand_at(&instruction, offset.saturating_sub(line) / 2) {
        Some(Operand::General(mode, register))
            if line < offset && mode.addressing(register) == Some(Addressing::Absolute) => Some(
            word,
        ),
        _ => None,
    }
}

/// Where a word leads that no link changes.
fn unmoved_aim(file: &File, starts: &[bool], part: Part, offset: u16, word: u16) -> Option<Aim>
    ensures { result ≡ unmoved_aim starts.now file.now part offset word }
{
    match part {
        Part::Text => {
            let line = line_of(starts, part, offset);
            let address = text_target(file, line, offset, word)?;
            Some(Aim::Addressed(Segment::TextSeg, address))
        }
        Part::Data => None,
    }
}

/// Where a word leads; nowhere if its relocation word was stripped.
fn aim_of(
    file: &File,
    starts: &[bool],
    part: Part,
    offset: u16,
    reloc: Option<Reloc>,
    word: u16,
) -> Option<Aim>
    ensures { result ≡ aim_of starts.now file.now part offset reloc word }
{
    let reloc = reloc?;
    if !is_relocated(Some(reloc)) {
        return unmoved_aim(file, starts, part, offset, word);
    }
    aim_by(reloc, reloc.target(word, address_in(file, part, offset)))
}

/// Appends the words of a part that lead somewhere.
fn put_leads(
    found: &mut Vec<Lead>,
    file: &File,
    starts: &[bool],
    part: Part,
) -> Result<(), AllocError>
    ensures { OnOk result
        (found.new.items ≡ found.old.items ++ leads_of starts.now file.now part) }
{
    for number in 0..file.words_of(part).len() {
        let at = file.placed_word(part, number);
        let offset = (2 * number) as u16;
        if let Some(aim) = aim_of(file, starts, part, offset, at.reloc, at.word) {
            found.push(Lead {
                part,
                offset,
                aim,
                inside: 0,
            })?;
        }
    }
    Ok(())
}

/// The words of an object that lead somewhere, in the order of their places, text before data. An error: out of memory.
pub(crate) fn leads_in(alloc: Global, file: &File, starts: &[bool]) -> Result<Vec<Lead>, AllocError>
    ensures { IfOk result (λ found. found.items ≡ leads starts.now file.now) }
{
    let mut found = Vec::new(alloc);
    put_leads(&mut found, file, starts, Part::Text)?;
    put_leads(&mut found, file, starts, Part::Data)?;
    Ok(found)
}

impl Aim {
    pub(crate) fn leads_to(&self, number: usize, symbol: &Symbol) -> bool
        ensures { result ≡ leads_to self.now number symbol.now }
    {
        match self {
            Aim::Numbered(one) => usize::from(*one) == number,
            Aim::Addressed(segment, address) => {
                symbol.type_bits % 0o40 == segment.number() && symbol.value == *address
            }
        }
    }
}
