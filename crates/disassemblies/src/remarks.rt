//! What operand words refer to, or may refer to, after their instruction.

use crate::line::{
    Spot, argument_reference, arguments_of, operand_reference, put_text_of, reloc_at, spots,
};
use crate::linked::segment_at;
use crate::listed::is_cut;
use crate::named::NamedFile;
use crate::naming::reference_at;
use crate::near::near_reference;
use crate::relocated::{put_from_the_pc, put_referred, referred};
use crate::strings::{is_string, put_string};
use aout_core::{File, Kind, Reloc, Segment};
use instructions::{
    Addressing, CallRow, Decoder, Instruction, Line, Operand, Reference, UnixLine, is_relocated,
};
use texts::Text;

/// Appends the string that a number refers to by its relocation word, if it does.
fn put_pointed(text: &mut Text, file: &File, reloc: Reloc, number: u16) {
    if reloc.kind() == Some(Kind::DataSeg)
        && let Some(place) = usize::from(number).checked_sub(file.header().data_start())
    {
        put_string(text, " / ", file.data_words(), place);
    }
}

/// Appends what a number refers to by its relocation word: a symbol with this address, or the label near it, or its segment and the
/// address; and the string there.
pub fn put_pointed_text(text: &mut Text, file: &NamedFile<'_>, reloc: Reloc, number: u16) {
    let names = file.names();
    let reference = match reloc.kind() {
        Some(Kind::TextSeg) => near_reference(names, Segment::TextSeg, number),
        Some(Kind::DataSeg) => near_reference(names, Segment::DataSeg, number),
        Some(Kind::BssSeg) => near_reference(names, Segment::BssSeg, number),
        _ => referred(names, reloc, number),
    };
    put_referred(text, reference, reloc, number);
    put_from_the_pc(text, reloc);
    put_pointed(text, file.file(), reloc, number);
}

/// Appends the remarks on a relocated word at a place, with the reference in its line.
fn put_target(
    text: &mut Text,
    file: &NamedFile<'_>,
    reloc: Reloc,
    word: u16,
    place: usize,
    reference: Option<Reference>,
) {
    let number = reloc.target(word, (place.wrapping_mul(2) % 65536) as u16);
    if reference.is_some() {
        return put_pointed(text, file.file(), reloc, number);
    }
    text.put(" / ");
    put_pointed_text(text, file, reloc, number);
}

/// Appends what a number without relocation may refer to in the space of instructions or in that of data.
fn put_perhaps_at(text: &mut Text, file: &NamedFile<'_>, fetches: bool, number: u16) {
    let names = file.names();
    let header = file.file().header();
    let reference = match segment_at(header, fetches, number) {
        Some(Segment::TextSeg) => reference_at(names, Segment::TextSeg, number),
        Some(Segment::DataSeg) => {
            let words = file.file().data_words();
            let place = usize::from(number).wrapping_sub(header.data_start());
            if is_string(words, place) {
                return put_string(text, " / ", words, place);
            }
            near_reference(names, Segment::DataSeg, number)
        }
        Some(Segment::BssSeg) => near_reference(names, Segment::BssSeg, number),
        _ => None,
    };
    if let Some(reference) = reference {
        text.put(" / perhaps ");
        reference.put_text(text);
    }
}

/// Appends the nearest label at or before an address that an operand of mode 37, 67 or 77 has.
fn put_near(text: &mut Text, file: &NamedFile<'_>, fetches: bool, address: u16) {
    if let Some(segment) = segment_at(file.file().header(), fetches, address)
        && let Some(reference) = file.names().nearest_label(segment, address)
    {
        text.put(" / perhaps ");
        reference.put_text(text);
    }
}

/// Appends the remark on an operand word without relocation.
fn put_unrelocated(
    text: &mut Text,
    file: &NamedFile<'_>,
    spot: Spot,
    operand: Option<Operand>,
    number: u16,
) {
    let Some(Operand::General(mode, register)) = operand else {
        return;
    };
    let jumps = spot.operation.jumps();
    let (fetches, address) = match mode.addressing(register) {
        Some(Addressing::Immediate) => return put_perhaps_at(text, file, false, number),
        Some(Addressing::Absolute) => (jumps, number),
        Some(Addressing::Relative) => (jumps, spot.next.wrapping_add(number)),
        Some(Addressing::RelativeDeferred) => (false, spot.next.wrapping_add(number)),
        Some(Addressing::Indexed) | None => return,
    };
    if operand_reference(file, spot, operand, Some(number)).is_none() {
        put_near(text, file, fetches, address);
    }
}

/// Appends the remark on the word of an operand.
fn put_operand(
    text: &mut Text,
    file: &NamedFile<'_>,
    spot: Spot,
    operand: Option<Operand>,
    number: u16,
) {
    match reloc_at(file.file(), spot.place) {
        Some(reloc) if is_relocated(Some(reloc)) => {
            let reference = operand_reference(file, spot, operand, Some(number));
            put_target(text, file, reloc, number, spot.place, reference);
        }
        Some(_) => {}
        None => put_unrelocated(text, file, spot, operand, number),
    }
}

/// Appends the remarks on the arguments of a system call at a place.
fn put_call(text: &mut Text, file: &NamedFile<'_>, place: usize, call: &CallRow) {
    let mut at = place;
    for argument in arguments_of(file.file(), place, call) {
        at = at.wrapping_add(1);
        match reloc_at(file.file(), at) {
            Some(reloc) if is_relocated(Some(reloc)) => {
                let reference = argument_reference(file, Some(reloc), *argument);
                put_target(text, file, reloc, *argument, at, reference);
            }
            Some(_) => {}
            None => put_perhaps_at(text, file, false, *argument),
        }
    }
}

/// Appends the remarks on the operand words of an instruction at a place.
fn put_instruction(
    text: &mut Text,
    file: &NamedFile<'_>,
    place: usize,
    instruction: &Instruction,
    words: (Option<u16>, Option<u16>),
) {
    let (first, second) = spots(place, instruction);
    if let Some(number) = words.0 {
        put_operand(text, file, first, instruction.first, number);
    }
    if let Some(number) = words.1 {
        put_operand(text, file, second, instruction.second, number);
    }
}

/// Appends the text of the line that a listing shows at a place, and its remarks.
pub(crate) fn put_remarked_text(
    text: &mut Text,
    decoder: Decoder,
    file: &NamedFile<'_>,
    place: usize,
    line: &UnixLine,
) {
    put_text_of(text, file, place, line);
    if is_cut(decoder, file, place, line) {
        text.put(" / cut by a label");
    }
    match line {
        UnixLine::Call(call) => put_call(text, file, place, call),
        UnixLine::Machine(Line::Decoded(instruction, word, other)) => {
            put_instruction(text, file, place, instruction, (*word, *other));
        }
        UnixLine::Machine(Line::Plain(_)) => {}
    }
}
