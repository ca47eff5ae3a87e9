//! Addresses in text at which no instruction begins.
ghost use Rattle.std.specs.{Prelude.{◌≡◌, ◌<◌, length, slice_get, is_some}, List.{flat_map, list_any}};
ghost use Rattle.aout_core.specs.Placed.{placed_word, placed_words, relocs_of, words_of};
ghost use Rattle.checks.specs.Found.{Finds, found_if};
ghost use Rattle.checks.specs.{Odd.symbol_at, Reached.is_text, declared.finding.FindingKind.TheVariants.UnsuitableAddress};
ghost use Rattle.checks.specs.Addresses.{is_misplaced, is_absolute_text, suspicious_symbol, suspicious_symbols, suspicious_reloc, suspicious_word, suspicious_addresses};

use crate::evidence::{Evidence, Reached};
use crate::finding::FindingKind::{AbsoluteText, UnsuitableAddress};
use crate::finding::Findings;
use crate::places::{Title, symbol_at};
use crate::referent::bss_to;
use crate::trust::entered;
use aout_core::{File, Part, Segment, Symbol};
use std::fmt::{self, Display, Formatter, Write};

/// Why no instruction begins at an address.
#[derive(Clone, Copy)]
pub(crate) enum Misplaced {
    Odd,
    /// It is the end of text.
    AtEnd,
    /// It is within the instruction at this address.
    Within(u32),
}

/// Why no instruction begins at an address of the text or at its end, if none does.
fn misplaced_at(reached: &Reached<'_>, address: u16) -> Option<Misplaced>
    ensures { is_some result ≡ is_misplaced reached.now.evidence reached.now.sweep.now address }
{
    let file = reached.sweep.file();
    let (at, end) = (usize::from(address), 2 * file.text_words().len());
    if at > end {
        None
    } else if address % 2 == 1 {
        Some(Misplaced::Odd)
    } else if at < end {
        match entered(reached, at / 2) {
            Some(start) => Some(Misplaced::Within((2 * start) as u32)),
            None => None,
        }
    } else if file.header().flag == 0 && at < bss_to(file.header()) {
        Some(Misplaced::AtEnd)
    } else {
        None
    }
}

/// Why no instruction begins there, and what to do.
impl Display for Misplaced {
    fn fmt<W: fmt::Write>(&self, f: &mut Formatter<W>) -> fmt::Result {
        match self {
            Misplaced::Odd => {
                f.write_str(", which is odd: an instruction begins at an even address")
            }
            Misplaced::AtEnd => {
                f.write_str(", where text ends: data begins there, of type 3 and relocation word 4")
            }
            Misplaced::Within(at) => {
                let at = *at;
                write!(
                    f,
                    ", within the instruction at {at:06o}: count all bytes before it"
                )
            }
        }
    }
}

/// Whether an external is absolute and has an address of the text.
fn is_absolute_text(file: &File, symbol: &Symbol) -> bool
    ensures { result ≡ is_absolute_text file.now symbol.now }
{
    symbol.is_external()
        && symbol.is_of(Segment::Absolute)
        && usize::from(symbol.value) < 2 * file.text_words().len()
}

/// Adds what refers to an address of the text or to its end, if no instruction begins there.
fn find_misplaced<D: Display + Drop>(
    findings: &mut Findings,
    reached: &Reached<'_>,
    place: usize,
    address: u16,
    says: D,
)
    ensures { Finds findings.old findings.new
        (found_if (is_misplaced reached.now.evidence reached.now.sweep.now address) place UnsuitableAddress) }
{
    if let Some(misplaced) = misplaced_at(reached, address) {
        findings.find_if(
            true,
            place,
            UnsuitableAddress,
            format_args!("{says}{misplaced}"),
        );
    }
}

/// Adds what is suspicious of symbol `number`. Some symbol is of text, or none is.
fn find_symbol(
    findings: &mut Findings,
    reached: &Reached<'_>,
    named: bool,
    number: usize,
    symbol: &Symbol,
)
    requires { number < 65536 }
    ensures { Finds findings.old findings.new (suspicious_symbol reached.now.evidence reached.now.sweep.now named
        (symbol_at reached.now.sweep.now.header number) symbol.now) }
{
    let file = reached.sweep.file();
    let place = symbol_at(file.header(), number);
    let (title, value) = (Title { number, symbol }, symbol.value);
    if symbol.is_of(Segment::TextSeg) {
        let says = format_args!("{title} of text has value {value:06o}");
        find_misplaced(findings, reached, place + 10, value, says);
    }
    findings.find_if(
        !named && is_absolute_text(file, symbol),
        place + 8,
        AbsoluteText,
        format_args!(
            "{title} is absolute with value {value:06o}, which is in text, and no symbol is of text: its type is 000042"
        ),
    );
}

fn has_text_symbol(symbols: &[Symbol]) -> bool
    ensures { result ≡ list_any is_text symbols.now }
{
    symbols.iter().any(|symbol| symbol.is_of(Segment::TextSeg))
}

/// Adds what is suspicious of the symbols.
fn find_symbols(findings: &mut Findings, reached: &Reached<'_>)
    ensures { Finds findings.old findings.new (suspicious_symbols reached.now.evidence reached.now.sweep.now
        (list_any is_text reached.now.sweep.now.symbols) 0 reached.now.sweep.now.symbols) }
{
    let symbols = reached.sweep.file().symbols();
    let named = has_text_symbol(symbols);
    for (number, symbol) in symbols.iter().enumerate() {
        find_symbol(findings, reached, named, number, symbol);
    }
}

/// Adds a word of a part, if it is of kind text and no instruction begins where it refers to.
fn find_word(findings: &mut Findings, reached: &Reached<'_>, part: Part, number: usize)
    requires { number < length (words_of reached.now.sweep.now part) }
    ensures { Finds findings.old findings.new (suspicious_reloc reached.now.evidence reached.now.sweep.now
        (placed_word reached.now.sweep.now part number)
        (slice_get (relocs_of reached.now.sweep.now part) number)) }
{
    let at = reached.sweep.file().placed_word(part, number);
    let Some(reloc) = at.reloc else {
        return;
    };
    if reloc.0 % 0o20 == 2 {
        let (address, word) = (at.address, at.word);
        let says = format_args!(
            "the word at {address:06o} is of kind text and refers to {word:06o}"
        );
        find_misplaced(findings, reached, at.place, word, says);
    }
}

/// Adds what is suspicious of the words of a part.
fn find_words(findings: &mut Findings, reached: &Reached<'_>, part: Part)
    ensures { Finds findings.old findings.new
        (flat_map (suspicious_word reached.now.evidence reached.now.sweep.now) (placed_words reached.now.sweep.now part)) }
{
    let words = reached.sweep.file().words_of(part);
    for (number, _) in words.iter().enumerate() {
        find_word(findings, reached, part, number);
    }
}

/// Adds the addresses in text at which no instruction begins, if all of the text is instructions.
pub(crate) fn find_addresses(findings: &mut Findings, reached: &Reached<'_>)
    ensures { Finds findings.old findings.new
        (suspicious_addresses reached.now.evidence reached.now.sweep.now) }
{
    if reached.evidence != Evidence::Promise {
        return;
    }
    find_words(findings, reached, Part::Text);
    find_words(findings, reached, Part::Data);
    find_symbols(findings, reached);
}
