//! What is suspicious in a text. Only tested: what the findings say.
ghost use Rattle.std.specs.Prelude.{◌≡◌, ◌^◌, ◌<◌, length, IfOk};
ghost use Rattle.instructions.specs.Instructions.{instruction_of};
ghost use Rattle.checks.specs.{Found.{each_found, Finds}, Trust.trust, Branches.of_lines, internal.Marks.ShowReached};
ghost use Rattle.checks.specs.declared.evidence.Evidence.TheVariants.{Names};
ghost use Rattle.checks.specs.Suspicions.{reloc_place, may_begin, is_exchanged, suspicious_operand, suspicious_lack, suspicious_plain};
ghost use Rattle.checks.specs.Suspicions.{suspicious_line, suspicious_at, suspicious_place, suspicious_words, suspicions, all_odd};

use crate::addresses::find_addresses;
use crate::branches::find_branch;
use crate::evidence::{Evidence, Reached};
use crate::finding::{Finding, FindingKind, Findings};
use crate::leads::{branch_of, is_external_csv, reloc_at};
use crate::odd::odd_of;
use crate::places::FilePlaces;
use crate::reached::{is_marked, reached_places};
use crate::referent::find_references;
use crate::suspect::{Suspect, doubt_text, word_place};
use crate::trust::{Trust, is_sure};
use crate::uses::find_uses;
use aout_core::File;
use disassemblies::Sweep;
use instructions::{Addressing, Instruction, Line, Operand, UnixLine, decode, is_relocated};
use std::alloc::{AllocError, Global};

/// The byte of the file at which the relocation word of a word of text is.
fn reloc_place(file: &File, place: usize) -> usize
    requires { place < 2 ^ 20 }
    ensures { result ≡ reloc_place file.now place }
{
    FilePlaces::of(file.header()).relocation + 2 * place
}

/// Whether the word at a place would begin an instruction, if it were not relocated, with a last word that is an operand word and not
/// relocated.
fn may_begin(file: &File, place: usize) -> bool
    requires { place < length file.now.text_words }
    ensures { result ≡ may_begin file.now place }
{
    let count = decode(file.text_words(), place).length();
    1 < count && !is_relocated(reloc_at(file, place + count - 1))
}

/// Adds an operand whose word, if it has one, is at a place, and has a pc bit that does not suit it.
fn find_operand(findings: &mut Findings, at: &Suspect<'_>, place: usize, operand: Option<Operand>)
    requires { place < 2 ^ 20 }
    ensures { Finds findings.old findings.new
        (suspicious_operand at.now.lines.sweep.now at.now.trust.is_sure place operand) }
{
    let Some(Operand::General(mode, register)) = operand else {
        return;
    };
    let Some(addressing) = mode.addressing(register) else {
        return;
    };
    let file = at.lines.sweep.file();
    let Some(reloc) = reloc_at(file, place) else {
        return;
    };
    if is_relocated(Some(reloc)) && reloc.is_pc() != addressing.counts_from_pc() {
        let is_sure = at.trust.is_sure && !matches!(addressing, Addressing::Immediate);
        let what = if reloc.is_pc() {
            "is set, and its operand does not count"
        } else {
            "is not set, and its operand counts"
        };
        let (address, doubt) = (2 * place, doubt_text(is_sure));
        at.find(
            findings,
            is_sure,
            reloc_place(file, place),
            FindingKind::UnsuitablePcBit,
            format_args!("the pc bit of the word at {address:06o} {what} from the pc{doubt}"),
        );
    }
}

/// Whether the word at a place refers to `csv`, and the word before it is that of `jsr r5` with its high byte first.
fn is_exchanged(file: &File, place: usize) -> bool
    ensures { result ≡ is_exchanged file.now place }
{
    let words = file.text_words();
    0 < place
        && matches!(words.get(place - 1).copied(), Some(0o73411))
        && is_external_csv(file, reloc_at(file, place))
}

/// Adds a plain word at a place that is reached.
fn find_lack(findings: &mut Findings, at: &Suspect<'_>, word: u16)
    ensures { Finds findings.old findings.new
        (suspicious_lack at.now.trust.is_sure at.now.start (instruction_of word)) }
{
    let (place, is_sure) = (word_place(at.start), at.trust.is_sure);
    if Instruction::from_first_word(word).is_some() {
        let (before, after) = ("the instruction at", " is cut by the end of the text");
        at.find_here(
            findings,
            is_sure,
            place,
            FindingKind::CutInstruction,
            before,
            after,
        );
    } else {
        let (before, after) = ("an instruction leads to", ", where none begins");
        at.find_here(
            findings,
            is_sure,
            place,
            FindingKind::NoInstruction,
            before,
            after,
        );
    }
}

/// Adds what is suspicious of a plain word.
fn find_plain(findings: &mut Findings, at: &Suspect<'_>, word: u16)
    ensures { Finds findings.old findings.new
        (suspicious_plain at.now.lines.sweep.now at.now.trust at.now.start word) }
{
    let file = at.lines.sweep.file();
    if is_relocated(reloc_at(file, at.start)) {
        if at.trust.is_reached || may_begin(file, at.start) {
            let place = reloc_place(file, at.start);
            let (before, after) = ("the first word of the instruction at", " is relocated");
            let is_sure = at.trust.is_sure || is_exchanged(file, at.start);
            at.find_here(
                findings,
                is_sure,
                place,
                FindingKind::RelocatedFirstWord,
                before,
                after,
            );
        }
    } else if at.trust.is_reached {
        find_lack(findings, at, word);
    }
}

/// Adds what is suspicious of a line.
fn find_line(findings: &mut Findings, at: &Suspect<'_>, line: &UnixLine)
    ensures { Finds findings.old findings.new
        (suspicious_line at.now.lines.evidence at.now.lines.sweep.now at.now.trust at.now.start
        line.now) }
{
    match line {
        UnixLine::Machine(Line::Plain(word)) => find_plain(findings, at, *word),
        UnixLine::Machine(Line::Decoded(instruction, _, _)) => {
            let (place, address) = (at.start + 1, at.address());
            let later = place + instruction.words_before_second();
            find_operand(findings, at, place, instruction.first);
            find_operand(findings, at, later, instruction.second);
            find_branch(findings, at, branch_of(address, instruction.first));
            find_branch(findings, at, branch_of(address, instruction.second));
        }
        UnixLine::Call(_) => {}
    }
}

/// Adds what is suspicious of the line at a place, and of what its operands refer to.
fn find_at(findings: &mut Findings, at: &Suspect<'_>)
    ensures { Finds findings.old findings.new
        (suspicious_at at.now.lines.evidence at.now.lines.sweep.now at.now.trust
        at.now.start) }
{
    let line = at.lines.sweep.line_at(at.start);
    find_line(findings, at, &line);
    find_references(findings, at, &line);
    find_uses(findings, at, &line);
}

/// The places that an evidence of sure places shows, and for each word of the text whether names show it.
#[derive(Clone, Copy)]
struct Marked<'a> {
    shown: Reached<'a>,
    names: &'a [bool],
    ghost by_names: { ShowReached names.now Names shown.sweep.now },
}

/// The lines that a branch may enter.
fn lines_of<'a>(marked: &Marked<'a>) -> Reached<'a>
    ensures evidence { result.evidence ≡ of_lines marked.now.shown.evidence }
    ensures sweep { result.sweep.now ≡ marked.now.shown.sweep.now }
{
    match marked.shown.evidence {
        Evidence::Promise => marked.shown,
        Evidence::Names | Evidence::Flow => Reached {
            evidence: Evidence::Names,
            sweep: marked.shown.sweep,
            marks: marked.names,
        },
    }
}

/// How far it is sure that the line at a place is an instruction.
fn trust_at(marked: &Marked<'_>, place: usize) -> Trust
    requires { place < length marked.now.shown.sweep.now.text_words }
    ensures { result ≡ trust marked.now.shown.evidence marked.now.shown.sweep.now place }
{
    let is_sure = is_sure(&marked.shown, place);
    Trust {
        is_reached: is_marked(marked.names, place) || is_sure,
        is_sure,
    }
}

/// Adds what is suspicious at a place.
fn find_place(findings: &mut Findings, marked: &Marked<'_>, place: usize)
    requires { place < length marked.now.shown.sweep.now.text_words }
    ensures { Finds findings.old findings.new
        (suspicious_place marked.now.shown.evidence marked.now.shown.sweep.now place) }
{
    let is_inside = place < marked.shown.sweep.file().text_words().len();
    prove!(is_inside);
    let trust = trust_at(marked, place);
    if trust.is_reached || marked.shown.sweep.is_start(place) {
        let at = Suspect {
            lines: lines_of(marked),
            start: place,
            trust,
        };
        find_at(findings, &at);
    }
}

/// Adds what is suspicious at each place.
fn find_places(findings: &mut Findings, marked: &Marked<'_>)
    ensures { Finds findings.old findings.new (suspicious_words marked.now.shown.evidence
        marked.now.shown.sweep.now 0 marked.now.shown.sweep.now.text_words) }
{
    let words = marked.shown.sweep.file().text_words();
    for (place, _) in words.iter().enumerate() {
        find_place(findings, marked, place);
    }
}

/// Adds what is suspicious at each place, and at addresses.
fn find_all<'a>(findings: &mut Findings, shown: Reached<'a>, names: &'a [bool])
    requires { ShowReached names.now Names shown.sweep.now }
    ensures { Finds findings.old findings.new (suspicions shown.entry.evidence shown.entry.sweep.now) }
{
    let marked = Marked { shown, names };
    find_places(findings, &marked);
    find_addresses(findings, &marked.shown);
}

/// What is suspicious in the text of a file, in the order of the places; the evidence, `Flow` or `Promise`, says which places are sure. An
/// error: out of memory. (a.out(5), the handbook of the PDP-11/70; what is suspicious: own choice)
pub fn suspicions_of(
    alloc: Global,
    evidence: Evidence,
    sweep: &Sweep<'_>,
) -> Result<Vec<Finding>, AllocError>
    ensures { IfOk result (λ findings.
        each_found findings.items ≡ suspicions evidence sweep.now) }
{
    let mut findings = Findings::new(alloc);
    let names = reached_places(alloc, Evidence::Names, sweep)?;
    let marks = reached_places(alloc, evidence, sweep)?;
    let shown = Reached {
        evidence,
        sweep: &*sweep,
        marks: &marks,
    };
    find_all(&mut findings, shown, &names);
    findings.finish()
}

/// What is odd of a file, which these bytes begin with, and what is suspicious in it. An error: out of memory.
pub fn all_odd_of(
    alloc: Global,
    evidence: Evidence,
    bytes: &[u8],
    sweep: &Sweep<'_>,
    commons: bool,
) -> Result<Vec<Finding>, AllocError>
    ensures { IfOk result (λ found.
        each_found found.items ≡ all_odd evidence commons bytes.now sweep.now) }
{
    let mut found = odd_of(alloc, bytes, sweep, commons)?;
    let mut more = suspicions_of(alloc, evidence, sweep)?;
    found.append(&mut more)?;
    Ok(found)
}
