//! What is suspicious of instructions by themselves.
ghost use Rattle.std.specs.Prelude.{◌≡◌, ◌+◌, ◌&&◌, ◌^◌, ◌<◌, ◌≤◌, eqb, false, true, length};
ghost use Rattle.checks.specs.{Branches.word_place, Reached.flows};
ghost use Rattle.checks.specs.Uses.{leads_nowhere, has_other_link, has_words, counts_from_even, is_odd, odd_operand};
ghost use Rattle.checks.specs.Uses.{suspicious_jump, suspicious_uses};
ghost use Rattle.checks.specs.{Found.{Finds, found_as}, declared.finding.FindingKind.TheVariants.NoEnd};
ghost use Rattle.instructions.specs.UnixLines.{unix_length};

use crate::finding::FindingKind::{self, NoEnd, OddOperand, UnsuitableJump, UnsuitableLink};
use crate::finding::Findings;
use crate::leads::{flows, is_external_csv, reloc_at};
use crate::suspect::{Suspect, doubt_text, word_place};
use aout_core::Reloc;
use instructions::{Addressing, Instruction, Line, Operand, Register, UnixLine};

/// Whether the destination of `jmp` or `jsr` with this first word is a register, or `$N`.
fn leads_nowhere(word: u16) -> bool
    ensures { result ≡ leads_nowhere word }
{
    word / 8 % 8 == 0 || word % 64 == 0o27
}

/// Whether this first word of `jsr` has another link than r5, and an operand of mode 67.
fn has_other_link(word: u16) -> bool
    ensures { result ≡ has_other_link word }
{
    word / 0o1000 == 4 && word % 64 == 0o67 && word != 0o4567
}

/// Whether the operands in memory of an instruction with this first word are words.
fn has_words(word: u16) -> bool
    ensures { result ≡ has_words word }
{
    word / 0o100000 == 0 || word / 0o10000 == 0o16
}

/// Whether an operand word is a number that is added to an even address, or an address of a segment.
fn counts_from_even(addressing: Option<Addressing>, register: Register, reloc: Reloc) -> bool
    ensures { result ≡ counts_from_even addressing register reloc }
{
    match addressing {
        Some(Addressing::Indexed) => match register {
            Register::R5 | Register::Sp => reloc.0 % 0o20 == 0,
            _ => false,
        },
        Some(Addressing::Relative | Addressing::Absolute) => reloc.0 / 2 % 8 != 4,
        _ => false,
    }
}

/// Whether an operand word leads to an odd address.
fn is_odd(
    addressing: Option<Addressing>,
    register: Register,
    word: u16,
    reloc: Option<Reloc>,
) -> bool
    ensures { result ≡ is_odd addressing register word reloc }
{
    match reloc {
        Some(reloc) => word % 2 == 1 && counts_from_even(addressing, register, reloc),
        None => false,
    }
}

/// Adds what is said of the word at a place of the line.
fn find_use(
    findings: &mut Findings,
    at: &Suspect<'_>,
    is_sure: bool,
    place: usize,
    kind: FindingKind,
    said: &str,
)
    requires { place < 2 ^ 20 }
    ensures { Finds findings.old findings.new (found_as is_sure true (word_place place) kind) }
{
    let (address, doubt) = (2 * place, doubt_text(is_sure));
    at.find(
        findings,
        is_sure,
        word_place(place),
        kind,
        format_args!("the word at {address:06o} {said}{doubt}"),
    );
}

/// Adds an operand that has this word at a place, if that leads to an odd address.
fn find_odd(
    findings: &mut Findings,
    at: &Suspect<'_>,
    place: usize,
    operand: Option<Operand>,
    word: u16,
)
    requires { place < 2 ^ 20 }
    ensures { Finds findings.old findings.new
        (odd_operand at.now.lines.sweep.now at.now.trust place operand word) }
{
    let Some(Operand::General(mode, register)) = operand else {
        return;
    };
    let reloc = reloc_at(at.lines.sweep.file(), place);
    if is_odd(mode.addressing(register), register, word, reloc) {
        let said = "leads to a word of memory at an odd address";
        find_use(findings, at, at.trust.is_sure, place, OddOperand, said);
    }
}

/// Adds an instruction of so many words, if it is the last one and goes on.
fn find_no_end(findings: &mut Findings, at: &Suspect<'_>, instruction: &Instruction, count: usize)
    requires { count ≤ 5 }
    ensures { Finds findings.old findings.new (found_as false (eqb (at.now.start + count)
        (length at.now.lines.sweep.now.text_words) && flows at.now.lines.sweep.now at.now.start instruction.now)
        (word_place at.now.start) NoEnd) }
{
    let file = at.lines.sweep.file();
    if at.start + count == file.text_words().len() && flows(file, at.start, instruction) {
        let said = "is of the last instruction of text, and that goes on";
        find_use(findings, at, false, at.start, NoEnd, said);
    }
}

/// Adds a jump or a call with this first word.
fn find_jump(findings: &mut Findings, at: &Suspect<'_>, first: u16)
    ensures { Finds findings.old findings.new
        (suspicious_jump at.now.lines.sweep.now at.now.trust at.now.start first) }
{
    let (file, is_sure) = (at.lines.sweep.file(), at.trust.is_sure);
    if leads_nowhere(first) {
        let said = "jumps or calls, and leads to no place of memory";
        find_use(findings, at, is_sure, at.start, UnsuitableJump, said);
    }
    if has_other_link(first) && is_external_csv(file, reloc_at(file, at.start + 1)) {
        let said = "calls csv, which returns by r5";
        find_use(findings, at, false, at.start, UnsuitableLink, said);
    }
}

/// Adds what is suspicious of a line by itself, if it is reached.
pub(crate) fn find_uses(findings: &mut Findings, at: &Suspect<'_>, line: &UnixLine)
    requires { unix_length line.now ≤ 5 }
    ensures { Finds findings.old findings.new
        (suspicious_uses at.now.lines.sweep.now at.now.trust at.now.start line.now) }
{
    let UnixLine::Machine(Line::Decoded(instruction, word, other)) = *line else {
        return;
    };
    if !at.trust.is_reached {
        return;
    }
    let place = at.start + 1;
    let first = at.lines.sweep.file().text_words()[at.start];
    if instruction.row.operation.jumps() {
        return find_jump(findings, at, first);
    }
    if has_words(first) {
        let later = place + instruction.words_before_second();
        find_odd(findings, at, place, instruction.first, word.unwrap_or(0));
        find_odd(findings, at, later, instruction.second, other.unwrap_or(0));
    }
    find_no_end(findings, at, &instruction, line.length());
}
