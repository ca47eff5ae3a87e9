//! A line that is looked at.
ghost use Rattle.std.specs.Prelude.{◌≡◌, ◌<◌, ◌*◌, ◌^◌, true, length};
ghost use Rattle.checks.specs.{Found.{Finds, found_as}, Branches.word_place};

use crate::evidence::Reached;
use crate::finding::{FindingKind, Findings};
use crate::places::TextAddress;
use crate::trust::Trust;
use crate::wrong::put_instruction;
use std::fmt::Display;

/// A line of a file's text: the place at which it begins, how far it is sure that it is an instruction, and the lines that a branch may
/// enter.
#[derive(Clone, Copy)]
pub(crate) struct Suspect<'a> {
    pub(crate) lines: Reached<'a>,
    pub(crate) start: usize,
    pub(crate) trust: Trust,
    ghost inside: { start < length lines.sweep.now.text_words },
    ghost near: { start < 2 ^ 15 },
}

impl Suspect<'_> {
    /// The address of the line.
    pub(crate) fn address(&self) -> u16
        ensures { result ≡ 2 * self.now.start }
    {
        (2 * self.start) as u16
    }

    /// Adds a finding, with the instruction.
    pub(crate) fn find<D: Display + Drop>(
        &self,
        findings: &mut Findings,
        is_sure: bool,
        place: usize,
        kind: FindingKind,
        says: D,
    )
        ensures { Finds findings.old findings.new (found_as is_sure true place kind) }
    {
        let mut text = findings.text();
        text.say(says);
        put_instruction(&mut text, self.lines.sweep.named(), self.start);
        findings.find_as(is_sure, place, kind, text);
    }

    /// Adds a finding on the place of the line, by words before its address and after it.
    pub(crate) fn find_here(
        &self,
        findings: &mut Findings,
        is_sure: bool,
        place: usize,
        kind: FindingKind,
        before: &str,
        after: &str,
    )
        ensures { Finds findings.old findings.new (found_as is_sure true place kind) }
    {
        let names = self.lines.sweep.named().names();
        let (address, doubt) = (self.address(), doubt_text(is_sure));
        let at = TextAddress { names, address };
        let mut text = findings.text();
        text.say(format_args!("{before} {at}{after}{doubt}"));
        findings.find_as(is_sure, place, kind, text);
    }
}

/// The byte of the file that a word of text has.
pub(crate) fn word_place(place: usize) -> usize
    requires { place < 2 ^ 20 }
    ensures { result ≡ word_place place }
{
    16 + 2 * place
}

/// What is said of a line that may be of data.
pub(crate) fn doubt_text(is_sure: bool) -> &'static str {
    if is_sure {
        ""
    } else {
        ", if this is an instruction"
    }
}
