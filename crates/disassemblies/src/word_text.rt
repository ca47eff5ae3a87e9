//! What a relocation word says, in words.

use crate::named::NamedFile;
use crate::remarks::put_pointed_text;
use aout_core::{Kind, Name, Reloc};
use texts::Text;

/// Appends that no word may refer to a symbol, which has this number.
fn put_unwanted(text: &mut Text, number: u16, name: &Name) {
    text.put("not wanted: symbol ");
    text.put_decimal(u64::from(number));
    text.put_byte(b' ');
    text.put_printable_name(name.as_bytes());
}

/// Appends what a number refers to by the symbol of its relocation word, or why it may not.
fn put_external(text: &mut Text, file: &NamedFile<'_>, reloc: Reloc, number: u16) {
    match file.file().symbols().get(usize::from(reloc.number())) {
        Some(symbol) if symbol.is_undefined() => put_pointed_text(text, file, reloc, number),
        Some(symbol) => put_unwanted(text, reloc.number(), &symbol.name),
        None => {
            text.put("no symbol ");
            text.put_decimal(u64::from(reloc.number()));
        }
    }
}

/// Appends what a relocation word says of a word at an address.
pub(crate) fn put_word_text(
    text: &mut Text,
    file: &NamedFile<'_>,
    at: u16,
    word: u16,
    reloc: Reloc,
) {
    let number = reloc.target(word, at);
    match reloc.kind() {
        None => text.put("no kind of relocation"),
        Some(Kind::Absolute) => {
            if reloc.is_pc() {
                put_pointed_text(text, file, reloc, number);
            }
        }
        Some(Kind::External) => put_external(text, file, reloc, number),
        Some(_) => put_pointed_text(text, file, reloc, number),
    }
}
