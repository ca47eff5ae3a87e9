//! What relocation words refer to.

use crate::names::Names;
use crate::naming::{reference_at, reference_beyond};
use aout_core::{Kind, Reloc, Segment};
use instructions::{Addressing, Reference};
use texts::Text;

/// What a number refers to by its relocation word.
pub(crate) fn referred(names: &Names<'_>, reloc: Reloc, number: u16) -> Option<Reference> {
    match reloc.kind()? {
        Kind::Absolute => reference_at(names, Segment::Absolute, number),
        Kind::TextSeg => reference_at(names, Segment::TextSeg, number),
        Kind::DataSeg => reference_at(names, Segment::DataSeg, number),
        Kind::BssSeg => reference_at(names, Segment::BssSeg, number),
        Kind::External => reference_beyond(
            names.symbols.get(reloc.number() as usize).copied(),
            number,
        ),
    }
}

/// Whether a link does not move what a word refers to.
fn is_unmoved(reloc: Reloc) -> bool {
    reloc.0 / 2 % 8 == 0
}

/// What an address refers to that an instruction reaches from the pc.
fn object_address(names: &Names<'_>, reloc: Reloc, address: u16) -> Option<Reference> {
    if reloc.is_pc() {
        return referred(names, reloc, address);
    }
    if is_unmoved(reloc) {
        return reference_at(names, Segment::TextSeg, address);
    }
    None
}

/// What an operand word refers to in an object; `next` is the address after it.
pub(crate) fn object_reference(
    names: &Names<'_>,
    reloc: Reloc,
    word: u16,
    next: u16,
    addressing: Addressing,
) -> Option<Reference> {
    match addressing {
        Addressing::Relative | Addressing::RelativeDeferred => {
            object_address(names, reloc, next.wrapping_add(word))
        }
        Addressing::Absolute if !reloc.is_pc() => referred(names, reloc, word),
        Addressing::Immediate | Addressing::Indexed if !reloc.is_pc() && !is_unmoved(reloc) => {
            referred(names, reloc, word)
        }
        _ => None,
    }
}

fn segment_word(reloc: Reloc) -> &'static str {
    match reloc.kind() {
        Some(Kind::TextSeg) => "text ",
        Some(Kind::DataSeg) => "data ",
        Some(Kind::BssSeg) => "bss ",
        _ => "the number ",
    }
}

/// Appends what a number refers to, with or without a name.
pub(crate) fn put_referred(
    text: &mut Text,
    reference: Option<Reference>,
    reloc: Reloc,
    number: u16,
) {
    match reference {
        Some(reference) => reference.put_text(text),
        None => {
            text.put(segment_word(reloc));
            text.put_six_digits(u32::from(number));
        }
    }
}

/// Appends whether a word is relative to the pc.
pub(crate) fn put_from_the_pc(text: &mut Text, reloc: Reloc) {
    if reloc.is_pc() {
        text.put(", from the pc");
    }
}

/// Appends a word at an address that is relocated and begins a line.
pub(crate) fn put_relocated(
    text: &mut Text,
    names: &Names<'_>,
    reloc: Reloc,
    word: u16,
    address: u16,
) {
    let number = reloc.target(word, address);
    text.put_six_digits(u32::from(word));
    text.put(" / ");
    put_referred(text, referred(names, reloc, number), reloc, number);
    put_from_the_pc(text, reloc);
}
