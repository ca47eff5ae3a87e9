//! The words at which lines begin, and the line that has a word.
ghost use Rattle.std.specs.Prelude.{◌≡◌, ◌≤◌, ◌++◌, IfOk, OnOk};
ghost use Rattle.disassemblies.specs.Starts.{start, starts, is_start, line_start};

use crate::listed::ListedLines;
use aout_core::File;
use instructions::Decoder;
use std::alloc::{AllocError, Global};

/// Appends that a line begins, and its other words.
fn put_start(starts: &mut Vec<bool>, count: usize) -> Result<(), AllocError>
    requires some { 1 ≤ count }
    requires short { count ≤ 5 }
    ensures { OnOk result (starts.new.items ≡ starts.old.items ++ start count) }
{
    match count {
        1 => starts.extend_from_slice(&[true]),
        2 => starts.extend_from_slice(&[true, false]),
        3 => starts.extend_from_slice(&[true, false, false]),
        4 => starts.extend_from_slice(&[true, false, false, false]),
        _ => starts.extend_from_slice(&[true, false, false, false, false]),
    }
}

/// For each word of the text, whether a line begins there. An error: out of memory.
fn starts(alloc: Global, decoder: Decoder, lines: &ListedLines<'_>) -> Result<Vec<bool>, AllocError>
    ensures { IfOk result (λ v. v.items ≡ starts decoder lines.now) }
{
    let end = lines.file().text_words().len();
    let mut starts = Vec::new(alloc);
    let mut place = 0;
    while place < end {
        let count = lines.at(decoder, place).length();
        put_start(&mut starts, count)?;
        place += count;
    }
    Ok(starts)
}

/// For each word of a file's text, whether a line begins there in a listing. An error: out of memory.
pub fn line_starts(alloc: Global, decoder: Decoder, file: &File) -> Result<Vec<bool>, AllocError>
    ensures { IfOk result (λ v. v.items ≡ starts decoder file.now) }
{
    let lines = ListedLines::new(alloc, file)?;
    starts(alloc, decoder, &lines)
}

/// Whether a line begins at a place, by what `line_starts` gives; none begins after the end of the text.
pub fn is_start(starts: &[bool], place: usize) -> bool
    ensures { result ≡ is_start starts.now place }
{
    match starts.get(place) {
        Some(is_start) => *is_start,
        None => false,
    }
}

/// The place at which the line begins that has the word at a place, by what `line_starts` gives: the last place up to it at
/// which a line begins, or 0.
pub fn line_start(starts: &[bool], place: usize) -> usize
    ensures value { result ≡ line_start starts.now place }
    ensures before { result ≤ place }
{
    let mut start = place;
    while start > 0 && !is_start(starts, start) {
        start -= 1;
    }
    start
}
