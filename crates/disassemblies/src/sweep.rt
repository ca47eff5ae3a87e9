//! The lines of a file's text, decoded once for all that is said of them.
ghost use Rattle.std.specs.Prelude.{◌≡◌, ◌≤◌, ◌<◌, ◌+◌, ◌++◌, length, IfOk, OnOk};
ghost use Rattle.instructions.specs.{UnixLines.unix_length, declared.unix.Decoder.TheVariants.Unix};
ghost use Rattle.disassemblies.specs.{Lines.unix_line_in, Starts.{starts, is_start, swept_line}};
ghost use Rattle.disassemblies.specs.internal.Swept.{swept, line_words};

use crate::line::unix_line_in;
use crate::listed::{ListedLines, is_plain_line};
use crate::named::NamedFile;
use crate::remarks::put_remarked_text;
use aout_core::File;
use instructions::{Decoder, UnixLine};
use std::alloc::{AllocError, Global};
use std::marker::Model;
use texts::Text;

/// Appends a line for its first word, and none for its others.
fn put_line(
    lines: &mut Vec<Option<UnixLine>>,
    line: UnixLine,
    count: usize,
) -> Result<(), AllocError>
    requires some { 1 ≤ count }
    requires short { count ≤ 5 }
    ensures { OnOk result (lines.new.items ≡ lines.old.items ++ line_words line count) }
{
    let first = Some(line);
    match count {
        1 => lines.extend_from_slice(&[first]),
        2 => lines.extend_from_slice(&[first, None]),
        3 => lines.extend_from_slice(&[first, None, None]),
        4 => lines.extend_from_slice(&[first, None, None, None]),
        _ => lines.extend_from_slice(&[first, None, None, None, None]),
    }
}

/// For each word of the text the line that begins there, if one does. An error: out of memory.
fn swept(alloc: Global, listed: &ListedLines<'_>) -> Result<Vec<Option<UnixLine>>, AllocError>
    ensures { IfOk result (λ v. v.items ≡ swept Unix listed.now) }
{
    let end = listed.file().text_words().len();
    let mut lines = Vec::with_capacity(alloc, end)?;
    let mut place = 0;
    while place < end {
        let line = listed.at(Decoder::Unix, place);
        let count = line.length();
        put_line(&mut lines, line, count)?;
        place += count;
    }
    Ok(lines)
}

/// A file whose symbols are found by their values, and the lines of its text, with the arguments of system calls. Make it once for all
/// that is said of the text: each line is decoded once.
#[derive(Drop)]
pub struct Sweep<'a> {
    named: NamedFile<'a>,
    /// For each word the line that begins there, if one does.
    lines: Vec<Option<UnixLine>>,
}

impl<'a> Model for Sweep<'a> {
    ghost use Rattle.std.specs.Prelude.{◌≡◌};
    ghost use Rattle.aout_core.specs.Contents.{Contents};
    ghost use Rattle.instructions.specs.declared.unix.Decoder.TheVariants.{Unix};
    ghost use Rattle.disassemblies.specs.internal.Swept.{swept};

    ghost Value = { Contents };

    ghost view = { λ s. s.named };

    ghost invariant = { λ s. s.lines.items ≡ swept Unix s.named };
}

impl<'a> Sweep<'a> {
    /// A file, after its lines were decoded and its symbols put in their places. An error: out of memory.
    pub fn new(alloc: Global, file: &'a File) -> Result<Sweep<'a>, AllocError>
        ensures { IfOk result (λ s. s ≡ file.now) }
    {
        let listed = ListedLines::new(alloc, file)?;
        Ok(Sweep {
            named: NamedFile::new(alloc, file)?,
            lines: swept(alloc, &listed)?,
        })
    }

    /// The file, whose symbols are found by their values.
    pub fn named(&self) -> &NamedFile<'a>
        ensures { result.now ≡ self.now }
    {
        &self.named
    }

    /// The file.
    pub fn file(&self) -> &'a File
        ensures { result.now ≡ self.now }
    {
        self.named.file()
    }

    /// The line that a listing shows at a place of the text, which counts words, if one begins there.
    pub fn line_from(&self, place: usize) -> Option<UnixLine>
        ensures { result ≡ swept_line self.now place }
    {
        match self.lines.get(place) {
            Some(line) => *line,
            None => None,
        }
    }

    /// Whether a line begins at a place.
    pub fn is_start(&self, place: usize) -> bool
        ensures { result ≡ is_start (starts Unix self.now) place }
    {
        self.line_from(place).is_some()
    }

    /// The line that the words at a place of the text begin, whether or not a listing shows it there.
    pub fn line_at(&self, place: usize) -> UnixLine
        requires { place < length self.now.text_words }
        ensures line { result ≡ unix_line_in Unix self.now place }
        ensures fits { place + unix_length result ≤ length self.now.text_words }
        ensures some { 1 ≤ unix_length result }
        ensures short { unix_length result ≤ 5 }
    {
        match self.line_from(place) {
            Some(line) if !is_plain_line(&line) => line,
            _ => unix_line_in(Decoder::Unix, self.file(), place),
        }
    }

    /// Appends the text of a line at a place and its remarks, as `put_disassembly` has them.
    pub fn put_remarked_text(&self, text: &mut Text, place: usize, line: &UnixLine) {
        put_remarked_text(text, Decoder::Unix, &self.named, place, line);
    }
}
