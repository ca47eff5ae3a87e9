//! What a listing says beside the file, in a form that a reader skips.
ghost use Rattle.std.specs.{Prelude.{◌≡◌, ◌∷◌, [], true, nat_le}, List.list_all};
ghost use Rattle.listings.specs.{Listing.{IsLine, AreSkipped}, Puts.{PutsSuch, PutsLines, IsRemarked}};

use crate::columns::cut_line;
use crate::remark::Remark;
use crate::rows::{is_numbered, is_skipped};
use aout_core::{Part, Symbol};
use std::alloc::Global;
use texts::Text;

fn is_plain_byte(byte: u8) -> bool
    ensures { result ≡ nat_le 32 byte }
{
    byte >= b' '
}

/// Whether no byte is below the blank.
fn is_plain(bytes: &[u8]) -> bool
    ensures { result ≡ list_all (λ b. nat_le 32 b) bytes.now }
{
    bytes.iter().all(|byte| is_plain_byte(*byte))
}

/// Appends bytes; those below the blank as `\ooo`.
pub fn put_printed(text: &mut Text, bytes: &[u8])
    ensures { PutsSuch IsLine text.old text.new }
{
    for byte in bytes {
        if *byte < b' ' {
            text.put_escaped(*byte);
        } else {
            text.put_byte(*byte);
        }
    }
}

/// Appends a line that begins with a slash.
fn put_note(text: &mut Text, note: &[u8])
    ensures { PutsLines AreSkipped text.old text.new }
{
    text.put_byte(b'/');
    put_printed(text, note);
    text.put_byte(b'\n');
}

/// Appends notes, a line each, which begins with a slash.
pub fn put_notes(text: &mut Text, notes: &[Vec<u8>])
    ensures { PutsLines AreSkipped text.old text.new }
{
    for note in notes {
        put_note(text, note);
    }
}

/// Appends a label; as a note if a reader does not skip it.
fn put_label(text: &mut Text, label: &[u8])
    ensures { PutsLines AreSkipped text.old text.new }
{
    if is_plain(label) && is_skipped(label) {
        text.put_bytes(label);
        text.put_byte(b'\n');
    } else {
        put_note(text, label);
    }
}

fn put_labels(text: &mut Text, labels: &[u8])
    ensures { PutsLines AreSkipped text.old text.new }
{
    let mut rest = labels;
    while !rest.is_empty() {
        let (label, others) = cut_line(rest);
        put_label(text, label);
        rest = others;
    }
}

fn from_slash(said: &[u8]) -> &[u8] {
    match said.iter().position(|byte| *byte == b'/') {
        Some(place) => &said[place..],
        None => &[],
    }
}

/// Appends two blanks and a remark, or nothing if it is empty. One that a reader would not skip gets a slash.
fn put_said(text: &mut Text, said: &[u8])
    ensures { PutsSuch IsRemarked text.old text.new }
{
    if said.is_empty() {
        return;
    }
    text.put("  ");
    if is_plain(said) && !is_numbered(said) {
        text.put_bytes(said);
    } else {
        text.put_byte(b'/');
        put_printed(text, said);
    }
}

/// Appends two blanks and a remark, or nothing if it is empty. A number at its front is left out, up to a slash.
fn put_remark(text: &mut Text, remark: &Text)
    ensures { PutsSuch IsRemarked text.old text.new }
{
    match remark.so_far() {
        Ok(said) if is_numbered(said) => put_said(text, from_slash(said)),
        Ok(said) => put_said(text, said),
        Err(error) => text.cut(error),
    }
}

/// What is remarked of a file, with memory that one remark after another uses.
#[derive(Drop)]
pub(crate) struct Said<'a, R> {
    pub(crate) remarks: &'a R,
    remark: Text,
}

impl<'a, R: Remark> Said<'a, R> {
    pub(crate) fn new(alloc: Global, remarks: &'a R) -> Said<'a, R> {
        Said {
            remarks,
            remark: Text::new(alloc),
        }
    }

    /// Appends the labels before a word.
    pub(crate) fn put_labels(&mut self, text: &mut Text, part: Part, place: usize)
        ensures { PutsLines AreSkipped text.old text.new }
    {
        self.remark.clear();
        self.remarks.put_labels(&mut self.remark, part, place);
        match self.remark.so_far() {
            Ok(labels) => put_labels(text, labels),
            Err(error) => text.cut(error),
        }
    }

    /// Appends what is remarked of a word.
    pub(crate) fn put_word(&mut self, text: &mut Text, part: Part, place: usize)
        ensures { PutsSuch IsRemarked text.old text.new }
    {
        self.remark.clear();
        self.remarks.put_word(&mut self.remark, part, place);
        put_remark(text, &self.remark);
    }

    /// Appends what is remarked of a symbol.
    pub(crate) fn put_symbol(&mut self, text: &mut Text, symbol: &Symbol)
        ensures { PutsSuch IsRemarked text.old text.new }
    {
        self.remark.clear();
        self.remarks.put_symbol(&mut self.remark, symbol);
        put_remark(text, &self.remark);
    }
}
