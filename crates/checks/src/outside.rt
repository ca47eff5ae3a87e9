//! Whether an address outside of its segment is a fault for sure.
ghost use Rattle.std.specs.{Prelude.{◌≡◌, ◌^◌, ◌<◌, length, slice_get, zip}, List.list_any};
ghost use Rattle.aout_core.specs.Placed.{words_of};
ghost use Rattle.disassemblies.specs.Naming.{is_at};
ghost use Rattle.checks.specs.Outside.{is_byte, is_far, is_moved, is_at_address, is_direct_in, is_direct_back, is_direct, is_unmarked, is_shown};
ghost use Rattle.checks.specs.Outside.{is_sure_word, refers_at, is_inside, is_base, is_sure_value};

use crate::places::{has_address, range_of};
use aout_core::{File, Header, Part, Reloc, Segment, Symbol};
use disassemblies::Sweep;
use instructions::{Addressing, Line, Operand, UnixLine, is_relocated};

/// Whether a byte is not NUL.
pub(crate) fn has_byte(bytes: &[u8]) -> bool
    ensures { result ≡ list_any is_byte bytes.now }
{
    bytes.iter().any(|byte| *byte != 0)
}

/// Whether an address is more than 0400 bytes outside of a segment.
fn is_far(header: &Header, segment: Segment, address: u16) -> bool
    ensures { result ≡ is_far header.now segment address }
{
    let range = range_of(header, segment);
    let (first, last) = (u64::from(range.start), u64::from(range.end));
    let address = u64::from(address);
    if address < first {
        address + 0o400 < first
    } else {
        last + 0o400 < address && address + 0o400 < first + 65536
    }
}

/// Whether a symbol of text is outside of it.
fn is_moved(file: &File) -> bool
    ensures { result ≡ is_moved file.now }
{
    let header = file.header();
    file.symbols().iter().any(|symbol| {
        symbol.is_of(Segment::TextSeg) && !has_address(header, Segment::TextSeg, symbol.value)
    })
}

/// Whether an operand is in memory at an address: its mode is 37, 67 or 77.
fn is_at_address(operand: Option<Operand>) -> bool
    ensures { result ≡ is_at_address operand }
{
    let Some(Operand::General(mode, register)) = operand else {
        return false;
    };
    matches!(
        mode.addressing(register),
        Some(Addressing::Relative | Addressing::RelativeDeferred | Addressing::Absolute)
    )
}

/// Whether the word at a place is that of such an operand of a line.
fn is_direct_in(start: usize, place: usize, line: &UnixLine) -> bool
    requires { start < 2 ^ 16 }
    ensures { result ≡ is_direct_in start place line.now }
{
    let UnixLine::Machine(Line::Decoded(instruction, _, _)) = line else {
        return false;
    };
    let later = start + 1 + instruction.words_before_second();
    (place == start + 1 && is_at_address(instruction.first))
        || (place == later && is_at_address(instruction.second))
}

/// Whether it is so of the line that begins so many words before it.
fn is_direct_back(sweep: &Sweep<'_>, place: usize, back: usize) -> bool
    requires { place < length sweep.now.text_words }
    ensures { result ≡ is_direct_back sweep.now place back }
{
    if place < back {
        return false;
    }
    let is_inside = place < sweep.file().text_words().len();
    prove!(is_inside);
    let start = place - back;
    sweep.is_start(start) && is_direct_in(start, place, &sweep.line_at(start))
}

/// Whether a word of text is that of such an operand.
fn is_direct(sweep: &Sweep<'_>, part: Part, number: usize) -> bool
    requires { number < length (words_of sweep.now part) }
    ensures { result ≡ is_direct sweep.now part number }
{
    match part {
        Part::Text => is_direct_back(sweep, number, 1) || is_direct_back(sweep, number, 2),
        Part::Data => false,
    }
}

/// Whether a symbol of a segment has an address.
fn has_symbol_at(file: &File, segment: Segment, address: u64) -> bool
    ensures { result ≡ list_any (is_at segment address) file.now.symbols }
{
    file.symbols().iter().any(|symbol| symbol.is_of(segment) && u64::from(symbol.value) == address)
}

/// Whether word `number` of data, if there is one, is not relocated and has the address of a symbol of a segment.
fn is_unmarked(file: &File, segment: Segment, number: usize) -> bool
    ensures { result ≡ is_unmarked file.now segment
        (slice_get file.now.data_words number) (slice_get file.now.data_reloc number) }
{
    let Some(word) = file.data_words().get(number) else {
        return false;
    };
    !is_relocated(file.data_reloc().get(number).copied())
        && has_symbol_at(file, segment, u64::from(*word))
}

/// Whether something shows that a word of a part, which refers to an address far outside of this segment, has the wrong address or kind.
fn is_shown(sweep: &Sweep<'_>, part: Part, number: usize, segment: Segment) -> bool
    requires { number < length (words_of sweep.now part) }
    ensures { result ≡ is_shown sweep.now part number segment }
{
    let file = sweep.file();
    match part {
        Part::Text => sweep.is_start(number),
        Part::Data => {
            let is_inside = number < file.data_words().len();
            prove!(is_inside);
            is_unmarked(file, segment, number + 1)
        }
    }
}

/// Whether a word of a part is a fault for sure that refers to an address outside of this segment.
pub(crate) fn is_sure_word(
    sweep: &Sweep<'_>,
    part: Part,
    number: usize,
    segment: Segment,
    reloc: Reloc,
    address: u16,
) -> bool
    requires { number < length (words_of sweep.now part) }
    ensures { result ≡ is_sure_word sweep.now part number segment reloc address }
{
    let file = sweep.file();
    let start = u64::from(range_of(file.header(), segment).start);
    reloc.is_pc()
        || (!is_moved(file)
            && (is_direct(sweep, part, number)
                || (is_far(file.header(), segment, address)
                    && (address == 0
                        || has_symbol_at(file, segment, u64::from(address) + start)
                        || is_shown(sweep, part, number, segment)))))
}

/// Whether one of these words refers to an address of a segment, and not from the pc.
fn has_word_to(words: &[u16], relocs: &[Reloc], segment: Segment, address: u16) -> bool
    ensures { result ≡ list_any (refers_at segment address) (zip words.now relocs.now) }
{
    words.iter().zip(relocs).any(|(word, reloc)| {
        *word == address && reloc.0 % 16 + 2 == 2 * segment.number()
    })
}

/// Whether a symbol of a segment lies inside of it.
fn has_inner(file: &File, segment: Segment) -> bool
    ensures { result ≡ list_any (is_inside file.now.header segment) file.now.symbols }
{
    let header = file.header();
    file.symbols().iter().any(|symbol| {
        symbol.is_of(segment) && has_address(header, segment, symbol.value)
    })
}

/// Whether words count from an address outside of a segment, and a symbol lies inside, as in `base = table-2`.
fn is_base(file: &File, segment: Segment, address: u16) -> bool
    ensures { result ≡ is_base file.now segment address }
{
    has_inner(file, segment)
        && (has_word_to(file.text_words(), file.text_reloc(), segment, address)
            || has_word_to(file.data_words(), file.data_reloc(), segment, address))
}

/// Whether a symbol is a fault for sure whose value is outside of its segment.
pub(crate) fn is_sure_value(file: &File, symbol: &Symbol) -> bool
    ensures { result ≡ is_sure_value file.now symbol.now }
{
    !symbol.is_of(Segment::TextSeg)
        && (symbol.is_external() || is_far(file.header(), symbol.segment(), symbol.value))
        && !(is_moved(file) || is_base(file, symbol.segment(), symbol.value))
}
