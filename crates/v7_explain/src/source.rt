//! A file that is explained, and what is said of it whatever becomes of it. Only tested: what is said.
ghost use Rattle.std.specs.Prelude.{◌≡◌, IfOk};
ghost use Rattle.v7_explain.specs.Files.{HasStatus, status_in};

use crate::listing::{View, put_body};
use crate::program::NAME;
use aout_core::{Header, ObjectFault, ReadFault, Segment};
use checks::{
    Finding, KindText, Notes, decode_there, header_of, is_damaged, is_of_gnu, likeness,
    put_finding_text, put_findings, put_header, put_missing, relocs_there, segment_name,
    wrong_bytes,
};
use disassemblies::{Sweep, write_remains};
use host::{Answer, Path};
use listings::put_notes;
use std::alloc::{AllocError, Global};
use std::fmt::Display;
use texts::Text;

/// That a file is in the form of GNU's assembler.
pub(crate) const GNU_NOTE: &str =
    "this file has the form of GNU's assembler and of 2.11BSD, with symbols of 8 bytes and a table of strings: \
     v7-from-gnu makes an object of it";

/// How many odd things are shown one by one.
const MOST_ODD: usize = 16;

/// How many words of one kind that refer outside of its segment are shown one by one.
const MOST_ALIKE: usize = 4;

/// A file: its path and its bytes.
#[derive(Clone, Copy)]
pub(crate) struct Source<'a> {
    pub(crate) path: &'a str,
    pub(crate) bytes: &'a [u8],
}

pub(crate) fn status_in(refused: Option<ObjectFault>) -> u8
    ensures { result ≡ status_in refused }
{
    if is_damaged(refused) { 1 } else { 0 }
}

/// What bytes are that are not a file, if it is known.
pub(crate) fn likeness_of(bytes: &[u8], fault: ReadFault) -> Option<&'static str> {
    match fault {
        ReadFault::BadMagic | ReadFault::ShortHeader => likeness(bytes),
        _ => None,
    }
}

/// Puts the program and a path.
pub(crate) fn put_front(lines: &mut Text, path: &str) {
    lines.say(format_args!("{NAME}: {}: ", Path(path)));
}

pub(crate) fn put_text_line<D: Display + Drop>(lines: &mut Text, path: &str, text: D) {
    lines.say(format_args!("{NAME}: {}: {text}\n", Path(path)));
}

/// Puts findings as lines for standard error.
pub(crate) fn put_reports(lines: &mut Text, path: &str, wrong: &[Finding]) {
    for finding in wrong {
        put_front(lines, path);
        put_finding_text(lines, finding);
        lines.put("\n");
    }
}

/// A finding for so many words that refer outside of a segment, of which this is the first.
fn finding_for(
    alloc: Global,
    count: usize,
    segment: Segment,
    first: Finding,
) -> Result<Finding, AllocError> {
    let label = segment_name(segment);
    let said = first.text.as_slice();
    let mut text = Text::new(alloc);
    text.say(format_args!("{count} words of kind {label} lie outside, the first"));
    text.put_bytes(said.strip_prefix(b"the word".as_slice()).unwrap_or(said));
    let text = text.finish()?;
    Ok(Finding { text, ..first })
}

/// What is odd, with one finding for all words that refer outside of a segment, and are all sure or all in doubt, if there are more than a
/// few.
fn folded(
    alloc: Global,
    odd: Vec<Finding>,
    segment: Segment,
    is_sure: bool,
) -> Result<Vec<Finding>, AllocError> {
    let mut count = 0usize;
    for finding in &odd {
        if finding.outside == Some(segment) && finding.is_sure == is_sure {
            count = count.saturating_add(1);
        }
    }
    if count <= MOST_ALIKE {
        return Ok(odd);
    }
    let mut told = Vec::new(alloc);
    let mut is_counted = false;
    for finding in odd {
        if finding.outside != Some(segment) || finding.is_sure != is_sure {
            told.push(finding)?;
        } else if !is_counted {
            told.push(finding_for(alloc, count, segment, finding)?)?;
            is_counted = true;
        }
    }
    Ok(told)
}

/// The same for each segment.
pub(crate) fn fold_outside(alloc: Global, odd: Vec<Finding>) -> Result<Vec<Finding>, AllocError> {
    let mut odd = odd;
    for segment in [Segment::TextSeg, Segment::DataSeg, Segment::BssSeg] {
        odd = folded(alloc, odd, segment, true)?;
        odd = folded(alloc, odd, segment, false)?;
    }
    Ok(odd)
}

/// The findings that are shown one by one, and how many more there are.
fn shown(found: &[Finding]) -> (&[Finding], usize) {
    let count = MOST_ODD.min(found.len());
    (&found[..count], found.len() - count)
}

/// Puts what is odd as lines for standard error.
pub(crate) fn put_odd_lines(lines: &mut Text, path: &str, odd: &[Finding]) {
    let (first, more) = shown(odd);
    put_reports(lines, path, first);
    if more > 0 {
        put_text_line(lines, path, format_args!("and {more} more that are odd"));
    }
}

/// What is wrong as lines for standard error, if it is reported.
pub(crate) fn reported(
    alloc: Global,
    is_reported: bool,
    path: &str,
    wrong: &[Finding],
) -> Result<Vec<u8>, AllocError> {
    let mut lines = Text::new(alloc);
    if is_reported {
        put_reports(&mut lines, path, wrong);
    }
    lines.finish()
}

pub(crate) fn put_odd(notes: &mut Notes, odd: &[Finding]) {
    let (first, more) = shown(odd);
    put_findings(notes, "odd", first);
    if more > 0 {
        notes.say(format_args!("and {more} more that are odd"));
    }
}

/// A note with the path and the size.
fn title(alloc: Global, source: Source<'_>) -> Notes {
    let (path, size) = (Path(source.path), source.bytes.len());
    let mut notes = Notes::new(alloc);
    notes.say(format_args!("{path}: 0{size:o} ({size}) bytes"));
    notes
}

/// The notes with which a file begins: the path with the size, and what the file is unless it is damaged.
pub(crate) fn front_notes(
    alloc: Global,
    source: Source<'_>,
    header: &Header,
    refused: Option<ObjectFault>,
) -> Notes {
    let mut notes = title(alloc, source);
    if !is_damaged(refused) {
        notes.say(KindText {
            header,
            is_object: refused.is_none(),
        });
    }
    notes
}

/// The notes on bytes that are not a file: the header, unless it is known what else they are, and what is wrong.
fn refused_notes(
    alloc: Global,
    source: Source<'_>,
    fault: ReadFault,
    wrong: &[Finding],
) -> Result<Notes, AllocError> {
    let known = likeness_of(source.bytes, fault);
    let mut notes = title(alloc, source);
    if known.is_none()
        && let Some(header) = header_of(source.bytes)
    {
        put_header(&mut notes, &header);
    }
    put_findings(&mut notes, "wrong", wrong);
    if let Some(text) = known {
        notes.say(text);
    }
    if is_of_gnu(alloc, source.bytes, true)? {
        notes.say(GNU_NOTE);
    }
    notes.whole()?;
    Ok(notes)
}

/// Appends what is there of a file that ends early, in a view or as a listing, and where it ends. That line begins with no slash, so it is
/// not a note: a listing that has it describes no file. Of a file that is not read for another reason nothing is there.
fn put_remains(
    text: &mut Text,
    view: Option<View>,
    fault: ReadFault,
    bytes: &[u8],
) -> Result<(), AllocError> {
    let alloc = text.allocator();
    let (ReadFault::Truncated, Some(header)) = (fault, header_of(bytes)) else {
        return Ok(());
    };
    let Ok(file) = decode_there(alloc, bytes)? else {
        return Ok(());
    };
    if let Some(view) = view {
        put_body(text, view, &file);
    } else {
        let sweep = Sweep::new(alloc, &file)?;
        let relocs = relocs_there(&header, bytes.len());
        text.put_bytes(&write_remains(alloc, &sweep, relocs)?);
    }
    put_missing(text, &header, bytes.len());
    text.put("\n");
    Ok(())
}

/// Explains bytes that are not a file, and shows what is there of one: in a view, or as a listing.
pub(crate) fn refuse(
    alloc: Global,
    view: Option<View>,
    source: Source<'_>,
    is_reported: bool,
    fault: ReadFault,
) -> Result<Answer, AllocError>
    ensures { IfOk result (λ answer. HasStatus 1 answer) }
{
    let wrong = wrong_bytes(alloc, source.bytes, fault)?;
    let mut text = Text::new(alloc);
    let notes = refused_notes(alloc, source, fault, &wrong)?;
    put_notes(&mut text, notes.lines());
    put_remains(&mut text, view, fault, source.bytes)?;
    Ok(Answer {
        output: text.finish()?,
        errors: reported(alloc, is_reported, source.path, &wrong)?,
        status: 1,
    })
}
