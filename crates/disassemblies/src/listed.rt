//! The lines that a listing shows: instructions begin anew at each symbol of text.
ghost use Rattle.std.specs.Prelude.{◌≡◌, ◌≤◌, ◌<◌, ◌+◌, ◌*◌, ◌||◌, ℕ, false, length, get_or, IfOk};
ghost use Rattle.aout_core.specs.declared.symbol.Segment.TheVariants.{TextSeg};
ghost use Rattle.instructions.specs.UnixLines.{unix_length};
ghost use Rattle.disassemblies.specs.{Naming.is_at, Lines.unix_line_in};
ghost use Rattle.disassemblies.specs.Listed.{listed_line, is_plain_line};
ghost use Rattle.disassemblies.specs.internal.Labelled.{AreLabelled, any_marked};

use crate::line::{reloc_at, unix_line_in};
use crate::named::NamedFile;
use crate::naming::is_at;
use aout_core::{File, Segment, Symbol};
use instructions::{Decoder, Line, UnixLine, is_relocated};
use std::alloc::{AllocError, Global};
use std::marker::Model;

/// Marks the word that a symbol names, if it is one of text.
fn mark_label(labelled: &mut [bool], symbol: &Symbol)
    ensures same { length labelled.new ≡ length labelled.old }
    ensures each { (i : ℕ) → i < length labelled.old → get_or labelled.new i false
        ≡ (get_or labelled.old i false || is_at TextSeg (2 * i) symbol.now) }
{
    let place = usize::from(symbol.value / 2);
    if place < labelled.len() && is_at(Segment::TextSeg, symbol.value / 2 * 2, symbol) {
        labelled[place] = true;
    }
}

/// For each word of a file's text, whether a symbol names it. An error: out of memory.
fn labelled(alloc: Global, file: &File) -> Result<Vec<bool>, AllocError>
    ensures { IfOk result (λ v. AreLabelled file.now.symbols (length file.now.text_words) v.items) }
{
    let mut labelled = vec![in alloc; false; file.text_words().len()]?;
    let symbols = file.symbols();
    for symbol in symbols {
        mark_label(&mut labelled, symbol);
    }
    Ok(labelled)
}

/// Whether one of so many words from a place on is marked.
fn any_marked(marks: &[bool], place: usize, count: usize) -> bool
    requires { place + count ≤ length marks.now }
    ensures { result ≡ any_marked marks.now place count }
{
    let end = place + count;
    let mut at = place;
    while at < end {
        if marks[at] {
            return true;
        }
        at += 1;
    }
    false
}

/// Whether a word is 0, and a link does not change it.
fn is_zero(file: &File, place: usize) -> bool {
    file.text_words().get(place).copied() == Some(0) && !is_relocated(reloc_at(file, place))
}

/// The lines of a file's text, each up to the next label. Make it once for all lines.
#[derive(Drop)]
pub struct ListedLines<'a> {
    file: &'a File,
    /// For each word of the text, whether a symbol names it.
    labelled: Vec<bool>,
}

impl<'a> Model for ListedLines<'a> {
    ghost use Rattle.std.specs.Prelude.{◌≡◌, length};
    ghost use Rattle.aout_core.specs.Contents.{Contents};
    ghost use Rattle.disassemblies.specs.internal.Labelled.{AreLabelled};

    ghost Value = { Contents };

    ghost view = { λ l. l.file.now };

    ghost invariant = { λ l. AreLabelled l.file.now.symbols (length l.file.now.text_words) l.labelled.items };
}

impl<'a> ListedLines<'a> {
    /// The lines of a file. An error: out of memory.
    pub fn new(alloc: Global, file: &'a File) -> Result<ListedLines<'a>, AllocError>
        ensures { IfOk result (λ l. l ≡ file.now) }
    {
        Ok(ListedLines {
            file,
            labelled: labelled(alloc, file)?,
        })
    }

    pub(crate) fn file(&self) -> &'a File
        ensures { result.now ≡ self.now }
    {
        self.file
    }

    /// The line at a place of the text, which counts words: the one that the words there begin, or the first word alone, if a
    /// symbol of text names a later word of that line.
    #[tactic(auto, using(crate::proofs::ListedLemmas::listed_by))]
    pub fn at(&self, decoder: Decoder, place: usize) -> UnixLine
        requires { place < length self.now.text_words }
        ensures line { result ≡ listed_line decoder self.now place }
        ensures fits { place + unix_length result ≤ length self.now.text_words }
        ensures some { 1 ≤ unix_length result }
        ensures short { unix_length result ≤ 5 }
    {
        let line = unix_line_in(decoder, self.file, place);
        if any_marked(&self.labelled, place + 1, line.length() - 1) {
            return UnixLine::Machine(Line::Plain(self.file.text_words()[place]));
        }
        line
    }

    /// How many words 0 follow each other from a place on, up to the next label.
    fn zeros(&self, place: usize) -> usize
        requires { place < length self.now.text_words }
        ensures { place + result ≤ length self.now.text_words }
    {
        let end = self.file.text_words().len();
        let mut at = place;
        while at < end
            && is_zero(self.file, at)
            && (at == place || self.labelled.get(at).copied() == Some(false))
        {
            at += 1;
        }
        at - place
    }

    /// How many words the rows at a place show: more than eight words 0 together, or those of the line there.
    pub(crate) fn shown_words(&self, place: usize, line: &UnixLine) -> usize
        requires within { place < length self.now.text_words }
        requires line { place + unix_length line.now ≤ length self.now.text_words }
        requires some { 1 ≤ unix_length line.now }
        ensures fits { place + result ≤ length self.now.text_words }
        ensures some { 1 ≤ result }
    {
        let zeros = self.zeros(place);
        if zeros > 8 { zeros } else { line.length() }
    }
}

/// Whether a line is a word that begins no instruction.
pub(crate) fn is_plain_line(line: &UnixLine) -> bool
    ensures { result ≡ is_plain_line line.now }
{
    match line {
        UnixLine::Machine(Line::Plain(_)) => true,
        _ => false,
    }
}

/// Whether a label cuts the line at a place. It would name one of the four words after it.
pub(crate) fn is_cut(
    decoder: Decoder,
    named: &NamedFile<'_>,
    place: usize,
    line: &UnixLine,
) -> bool {
    let file = named.file();
    let next = (place.wrapping_mul(2).wrapping_add(2) % 65536) as u16;
    is_plain_line(line)
        && place < file.text_words().len()
        && !named.is_bare(next, 3)
        && !is_plain_line(&unix_line_in(decoder, file, place))
}
