//! The words of a header, and what they say of a file.

use crate::notes::Notes;
use aout_core::Header;
use std::fmt::{self, Display, Formatter, Write};

/// What a magic number says.
fn magic_text(magic: u16) -> &'static str {
    match magic {
        0o407 => "magic: normal, data after text",
        0o410 => "magic: text can be shared, data at a multiple of 020000",
        0o411 => "magic: text and data in spaces of their own",
        0o405 => "magic: overlay",
        _ => "magic: none that a file begins with",
    }
}

/// Adds a note on the magic number and the sizes, and one on each other word of the header that is not 0.
pub fn put_header(notes: &mut Notes, header: &Header) {
    let (magic, meaning) = (header.magic, magic_text(header.magic));
    let (text, data, bss) = (header.text_size, header.data_size, header.bss_size);
    let table = header.symbol_size;
    notes.say(format_args!(
        "000  {magic:06o}  {meaning}; {text} bytes of text, {data} of data, {bss} of bss, {table} of symbols"
    ));
    put_word(notes, 10, header.entry_point, "entry point");
    put_word(notes, 12, header.unused, "unused");
    put_word(notes, 14, header.flag, "flag: no relocation");
}

/// Adds a note on the word at a byte of the header, unless it is 0.
fn put_word(notes: &mut Notes, place: u16, word: u16, meaning: &str) {
    if word != 0 {
        notes.say(format_args!("{place:03o}  {word:06o}  {meaning}"));
    }
}

/// What a file with this header is, if it is not damaged: an object, or why `ld` does not take it.
#[derive(Clone, Copy)]
pub struct KindText<'a> {
    pub header: &'a Header,
    pub is_object: bool,
}

/// What a file with this magic number is, if it is not an object.
fn program_text(magic: u16) -> &'static str {
    match magic {
        0o405 => "an overlay",
        0o410 => "a program, pure text",
        0o411 => "a program, separate text and data",
        _ => "a program",
    }
}

impl Display for KindText<'_> {
    fn fmt<W: fmt::Write>(&self, f: &mut Formatter<W>) -> fmt::Result {
        if self.is_object {
            return write!(f, "an object");
        }
        let header = self.header;
        let table = if header.symbol_size == 0 {
            ", no symbols"
        } else {
            ""
        };
        let why = if header.flag == 0 {
            "not of magic number 407, so ld cannot link it"
        } else {
            "relocation removed, so ld cannot link it again"
        };
        write!(f, "{}{table}; {why}", program_text(header.magic))
    }
}
