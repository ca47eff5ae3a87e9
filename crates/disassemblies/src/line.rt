//! The lines of a file's text.
ghost use Rattle.instructions.specs.{UnixLines.unix_length};
ghost use Rattle.std.specs.Prelude.{◌≡◌, ◌≤◌, ◌<◌, ◌+◌, length, slice_get};
ghost use Rattle.disassemblies.specs.Lines.{unix_line_in};

use crate::linked::{linked_reference, located};
use crate::named::NamedFile;
use crate::naming::reference_at;
use crate::relocated::{object_reference, put_relocated};
use aout_core::{File, Reloc, Segment};
use instructions::{
    Addressing, CallRow, Decoder, Instruction, Line, Operand, Operation, Reference, References,
    UnixLine, branch_back_target, branch_target, decode_by, is_relocated, put_argument,
};
use texts::Text;

/// The relocation word of the word at a place of the text, if the file has relocation.
pub(crate) fn reloc_at(file: &File, place: usize) -> Option<Reloc>
    ensures { result ≡ slice_get file.now.text_reloc place }
{
    file.text_reloc().get(place).copied()
}

/// The line at a place of a file's text, which counts words, with its arguments if it is a system call and the decoder knows
/// them. A word that is relocated begins no instruction: it is plain. (as(1); relocated words: own choice)
pub fn unix_line_in(decoder: Decoder, file: &File, place: usize) -> UnixLine
    requires { place < length file.now.text_words }
    ensures line { result ≡ unix_line_in decoder file.now place }
    ensures fits { place + unix_length result ≤ length file.now.text_words }
    ensures some { 1 ≤ unix_length result }
    ensures short { unix_length result ≤ 5 }
{
    let words = file.text_words();
    if is_relocated(reloc_at(file, place)) {
        return UnixLine::Machine(Line::Plain(words[place]));
    }
    decode_by(decoder, words, place)
}

/// Where an operand is in a text, and what its instruction does.
#[derive(Clone, Copy)]
pub(crate) struct Spot {
    pub(crate) operation: Operation,
    /// The address of the instruction.
    pub(crate) address: u16,
    /// The place of the operand word, if there is one.
    pub(crate) place: usize,
    /// The address after the operand word.
    pub(crate) next: u16,
}

/// Where the operands of the instruction at a place of the text are.
pub(crate) fn spots(place: usize, instruction: &Instruction) -> (Spot, Spot) {
    let before = instruction.words_before_second();
    let address = (place.wrapping_mul(2) % 65536) as u16;
    let first = Spot {
        operation: instruction.row.operation,
        address,
        place: place.wrapping_add(1),
        next: address.wrapping_add(4),
    };
    let second = Spot {
        place: first.place.wrapping_add(before),
        next: first
            .next
            .wrapping_add((before.wrapping_mul(2) % 65536) as u16),
        ..first
    };
    (first, second)
}

/// What an operand word refers to.
fn word_reference(
    file: &NamedFile<'_>,
    spot: Spot,
    word: u16,
    addressing: Addressing,
) -> Option<Reference> {
    let names = file.names();
    match reloc_at(file.file(), spot.place) {
        Some(reloc) => object_reference(names, reloc, word, spot.next, addressing),
        None => {
            let header = file.file().header();
            linked_reference(header, names, spot.operation, word, spot.next, addressing)
        }
    }
}

fn branch_reference(file: &NamedFile<'_>, target: u16) -> Option<Reference> {
    let header = file.file().header();
    if header.flag == 0 {
        return reference_at(file.names(), Segment::TextSeg, target);
    }
    located(header, file.names(), true, target)
}

/// What an operand refers to, if a name is known for it.
pub(crate) fn operand_reference(
    file: &NamedFile<'_>,
    spot: Spot,
    operand: Option<Operand>,
    word: Option<u16>,
) -> Option<Reference> {
    match operand? {
        Operand::General(mode, register) => {
            let addressing = mode.addressing(register)?;
            word_reference(file, spot, word.unwrap_or(0), addressing)
        }
        Operand::Forward(offset) => branch_reference(file, branch_target(spot.address, offset)),
        Operand::Backward(offset) => {
            branch_reference(file, branch_back_target(spot.address, offset))
        }
        Operand::Accumulator(_) | Operand::Register(_) | Operand::Number(_) => None,
    }
}

/// What an argument of a system call refers to, if a name is known for it.
pub(crate) fn argument_reference(
    file: &NamedFile<'_>,
    reloc: Option<Reloc>,
    argument: u16,
) -> Option<Reference> {
    object_reference(file.names(), reloc?, argument, 0, Addressing::Immediate)
}

/// The arguments of a system call at a place of the text, the first of them at the place after it.
pub(crate) fn arguments_of<'a>(file: &'a File, place: usize, call: &CallRow) -> &'a [u16] {
    let first = place.wrapping_add(1);
    let end = first.wrapping_add(usize::from(call.words));
    file.text_words().get(first..end).unwrap_or(&[])
}

/// Appends a system call at a place of the text, with its arguments.
fn put_call(text: &mut Text, file: &NamedFile<'_>, place: usize, call: &CallRow) {
    call.put_text(text);
    let mut at = place;
    for argument in arguments_of(file.file(), place, call) {
        at = at.wrapping_add(1);
        let reloc = reloc_at(file.file(), at);
        put_argument(text, *argument, argument_reference(file, reloc, *argument));
    }
}

/// Whether an operand may refer to something: it has a word, or is the target of a branch.
fn may_refer(operand: Option<Operand>, word: Option<u16>) -> bool {
    word.is_some() || matches!(operand, Some(Operand::Forward(_) | Operand::Backward(_)))
}

/// Appends an instruction or a plain word, which is at a place of the text and is not relocated.
fn put_machine_line(text: &mut Text, file: &NamedFile<'_>, place: usize, line: &Line) {
    let mut references = References {
        first: None,
        second: None,
    };
    if let Line::Decoded(instruction, word, other) = line {
        let (first, second) = spots(place, instruction);
        if may_refer(instruction.first, *word) {
            references.first = operand_reference(file, first, instruction.first, *word);
        }
        if may_refer(instruction.second, *other) {
            references.second = operand_reference(file, second, instruction.second, *other);
        }
    }
    let address = (place.wrapping_mul(2) % 65536) as u16;
    line.put_text_with(address, &references, text);
}

/// Appends the text of a line at a place of a file's text.
pub(crate) fn put_text_of(text: &mut Text, file: &NamedFile<'_>, place: usize, line: &UnixLine) {
    if let Some(reloc) = reloc_at(file.file(), place)
        && is_relocated(Some(reloc))
        && let Some(word) = file.file().text_words().get(place)
    {
        let address = (place.wrapping_mul(2) % 65536) as u16;
        return put_relocated(text, file.names(), reloc, *word, address);
    }
    match line {
        UnixLine::Call(call) => put_call(text, file, place, call),
        UnixLine::Machine(line) => put_machine_line(text, file, place, line),
    }
}

/// Appends the text of the line at a place of a file's text, which counts words. Where a name is known, it is in place of the
/// number. A relocated word that begins a line is followed by what it refers to, as `000002 / _x+2`. A system call is followed by
/// its arguments, as `sys write; _buf; 000012`, if the decoder knows them. (as(1); names and relocated words: own choice)
pub fn put_line_text(text: &mut Text, decoder: Decoder, file: &NamedFile<'_>, place: usize)
    requires { place < length file.now.text_words }
{
    let line = unix_line_in(decoder, file.file(), place);
    put_text_of(text, file, place, &line);
}
