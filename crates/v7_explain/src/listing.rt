//! Files as listings, in the form that `read_listing` of `listings` reads, as instructions, or as words in rows. Only tested: what notes say,
//! and what is shown but for a listing.
ghost use Rattle.std.specs.Prelude.{IfOk};
ghost use Rattle.aout_core.specs.WellFormed.{first_object_fault};
ghost use Rattle.v7_explain.specs.Files.{HasStatus, IsListing, status_in};

use crate::dump::put_dump;
use crate::functions::{put_functions, with_functions};
use crate::source::{GNU_NOTE, Source, fold_outside, front_notes, put_odd, reported, status_in};
use aout_core::{File, object_fault};
use checks::{Evidence, Finding, Notes, all_odd_of, is_of_gnu, put_findings, put_header, wrong_in};
use disassemblies::{Sweep, put_disassembly, write_explained};
use host::Answer;
use instructions::Decoder;
use listings::put_notes;
use std::alloc::{AllocError, Global};
use texts::Text;

/// How the contents of a file are shown.
#[derive(Clone, Copy, PartialEq, Eq)]
pub(crate) enum View {
    /// The text as instructions, as this decoder finds them.
    Instructions(Decoder),
    /// Text and data in rows of words.
    Rows,
}

/// Appends the text of a file as instructions; before it, of a program without symbols of text, the functions that its calls show.
fn put_instructions(text: &mut Text, file: &File) -> Result<(), AllocError> {
    let named = with_functions(text.allocator(), file)?;
    if named.is_some() {
        put_functions(text, file)?;
    }
    put_disassembly(text, Decoder::Unix, named.as_ref().unwrap_or(file));
    Ok(())
}

/// Appends the contents of a file.
pub(crate) fn put_body(text: &mut Text, view: View, file: &File) {
    match view {
        View::Instructions(Decoder::Unix) => {
            if let Err(error) = put_instructions(text, file) {
                text.cut(error);
            }
        }
        View::Instructions(decoder) => put_disassembly(text, decoder, file),
        View::Rows => put_dump(text, file),
    }
}

/// The contents of a file, with notes before it and findings after it, and its status.
pub(crate) fn show_file(
    alloc: Global,
    source: Source<'_>,
    view: View,
    file: &File,
) -> Result<Answer, AllocError>
    ensures { IfOk result (λ answer.
        HasStatus (status_in (first_object_fault file.now)) answer) }
{
    let refused = object_fault(file);
    let wrong = wrong_in(alloc, file, refused)?;
    let notes = front_notes(alloc, source, file.header(), refused);
    let mut findings = Notes::new(alloc);
    put_findings(&mut findings, "wrong", &wrong);
    notes.whole()?;
    findings.whole()?;
    let mut text = Text::new(alloc);
    put_notes(&mut text, notes.lines());
    put_body(&mut text, view, file);
    put_notes(&mut text, findings.lines());
    Ok(Answer {
        output: text.finish()?,
        errors: Vec::new(alloc),
        status: status_in(refused),
    })
}

/// What is found in a file, as notes after it.
fn list_findings(
    alloc: Global,
    bytes: &[u8],
    sweep: &Sweep<'_>,
    wrong: &[Finding],
) -> Result<Notes, AllocError> {
    let odd = all_odd_of(alloc, Evidence::Flow, bytes, sweep, true)?;
    let mut findings = Notes::new(alloc);
    put_findings(&mut findings, "wrong", wrong);
    put_odd(&mut findings, &fold_outside(alloc, odd)?);
    if is_of_gnu(alloc, bytes, false)? {
        findings.say(GNU_NOTE);
    }
    findings.whole()?;
    Ok(findings)
}

/// The listing of a file, with its status.
pub(crate) fn list_file(
    alloc: Global,
    source: Source<'_>,
    is_reported: bool,
    file: &File,
) -> Result<Answer, AllocError>
    ensures { IfOk result (λ answer. IsListing file.now answer) }
{
    let refused = object_fault(file);
    let wrong = wrong_in(alloc, file, refused)?;
    let mut notes = front_notes(alloc, source, file.header(), refused);
    put_header(&mut notes, file.header());
    let sweep = Sweep::new(alloc, file)?;
    let findings = list_findings(alloc, source.bytes, &sweep, &wrong)?;
    notes.whole()?;
    Ok(Answer {
        output: write_explained(alloc, &sweep, notes.lines(), findings.lines())?,
        errors: reported(alloc, is_reported, source.path, &wrong)?,
        status: status_in(refused),
    })
}
