//! Why files are not objects, and what is odd in objects. Only tested: what is said of them.
ghost use Rattle.std.specs.{Prelude.{◌≡◌, None, IfOk}, List.list_any};
ghost use Rattle.aout_core.specs.WellFormed.{first_object_fault};
ghost use Rattle.checks.specs.Found.{each_found};
ghost use Rattle.v7_explain.specs.Files.{HasStatus, status_checked, status_of};

use crate::source::{
    GNU_NOTE, Source, fold_outside, likeness_of, put_front, put_odd_lines, put_reports,
    put_text_line,
};
use aout_core::{File, ReadFault, object_fault};
use checks::{
    Evidence, Finding, KindText, all_odd_of, is_damaged, is_of_gnu, wrong_bytes, wrong_words,
};
use disassemblies::Sweep;
use host::{Answer, error_answer};
use std::alloc::{AllocError, Global};
use texts::Text;

/// Why bytes that are not a file are not an object.
pub(crate) fn check_refused(
    alloc: Global,
    source: Source<'_>,
    fault: ReadFault,
) -> Result<Answer, AllocError>
    ensures { IfOk result (λ answer. HasStatus 1 answer) }
{
    let wrong = wrong_bytes(alloc, source.bytes, fault)?;
    let mut lines = Text::new(alloc);
    put_reports(&mut lines, source.path, &wrong);
    if let Some(text) = likeness_of(source.bytes, fault) {
        put_text_line(&mut lines, source.path, text);
    }
    if is_of_gnu(alloc, source.bytes, true)? {
        put_text_line(&mut lines, source.path, GNU_NOTE);
    }
    error_answer(alloc, lines, 1)
}

fn is_any_sure(found: &[Finding]) -> bool
    ensures { result ≡ list_any (λ finding. finding.is_sure) found.now }
{
    found.iter().any(|finding| finding.is_sure)
}

/// The status after findings: 1 if one is sure.
fn status_of(found: &[Finding]) -> u8
    ensures { result ≡ status_of (each_found found.now) }
{
    if is_any_sure(found) { 1 } else { 0 }
}

/// What is odd in an object.
fn check_object(
    alloc: Global,
    evidence: Evidence,
    source: Source<'_>,
    file: &File,
) -> Result<Answer, AllocError>
    ensures { IfOk result (λ answer.
        HasStatus (status_checked evidence source.entry.bytes.now file.now None) answer) }
{
    let sweep = Sweep::new(alloc, file)?;
    let odd = all_odd_of(alloc, evidence, source.bytes, &sweep, false)?;
    let status = status_of(&odd);
    let mut lines = Text::new(alloc);
    put_odd_lines(&mut lines, source.path, &fold_outside(alloc, odd)?);
    error_answer(alloc, lines, status)
}

/// Why a file is not an object, if it is not; or what is odd in it.
pub(crate) fn check_file(
    alloc: Global,
    evidence: Evidence,
    source: Source<'_>,
    file: &File,
) -> Result<Answer, AllocError>
    ensures { IfOk result (λ answer. HasStatus
        (status_checked evidence source.entry.bytes.now file.now (first_object_fault file.now)) answer) }
{
    let refused = object_fault(file);
    if refused.is_none() {
        return check_object(alloc, evidence, source, file);
    }
    let path = source.path;
    let mut lines = Text::new(alloc);
    if is_damaged(refused) {
        let wrong = wrong_words(alloc, file)?;
        put_reports(&mut lines, path, &wrong);
    } else {
        put_front(&mut lines, path);
        lines.say(KindText {
            header: file.header(),
            is_object: false,
        });
        lines.put("\n");
    }
    error_answer(alloc, lines, 1)
}
