//! Where in a file a refusal stands, and the whole names of symbols.
ghost use Rattle.std.specs.Prelude.{◌≡◌};
ghost use Rattle.gnu_objects.specs.Places.{symbol_place, place_of};

use crate::checks::{strings_at, symbols_at};
use crate::names::name_at;
use crate::refusal::{Refusal, Size};
use crate::symbols::symbol_at;
use crate::whole::{header_of, strings_of, whole_header};
use aout_core::{Header, ObjectFault};

fn symbol_place(header: &Header, n: u16) -> usize
    ensures { result ≡ symbol_place header.now n }
{
    symbols_at(header) + 8 * usize::from(n)
}

/// The byte of the file, counted from 0, at which `convert` found what it refuses: a word of the header, the length of the
/// strings, a symbol, the second of two, or a relocation word; or the end of a file that is too short.
pub fn place_of(bytes: &[u8], refusal: Refusal) -> usize
    ensures { result ≡ place_of bytes.now refusal }
{
    if bytes.len() < 16 {
        return bytes.len();
    }
    let header = header_of(bytes);
    match refusal {
        Refusal::ShortHeader | Refusal::Truncated => bytes.len(),
        Refusal::BadMagic(_) | Refusal::Memory(_) | Refusal::BadWord(ObjectFault::NotAnObject) => 0,
        Refusal::OddSize(Size::TextSize) => 2,
        Refusal::OddSize(Size::DataSize) => 4,
        Refusal::OddSize(Size::BssSize) => 6,
        Refusal::OddSize(Size::SymbolSize) | Refusal::TooManySymbols(_) => 8,
        Refusal::BadStrings => strings_at(&header),
        Refusal::Overlay(n)
        | Refusal::BadPlace(n)
        | Refusal::Stab(n)
        | Refusal::Description(n)
        | Refusal::AlikeNames(_, n) => symbol_place(&header, n),
        Refusal::Linked(_) => 10,
        Refusal::BadWord(ObjectFault::NoRelocation) => 14,
        Refusal::StabWord(n)
        | Refusal::LocalWord(n, _)
        | Refusal::BadWord(ObjectFault::BadRelocation(n) | ObjectFault::BadSymbolNumber(n)) => {
            16 + usize::from(header.text_size) + usize::from(header.data_size) + 2 * usize::from(n)
        }
    }
}

/// The whole name of symbol `n`, counted from 0. It has no bytes if `convert` refuses the file for its header or its
/// strings, or if there is no such symbol.
pub fn whole_name(bytes: &[u8], n: u16) -> &[u8] {
    match whole_header(bytes) {
        Ok(header) if n < header.symbol_size / 8 => {
            let symbol = symbol_at(bytes, symbol_place(&header, n));
            name_at(strings_of(bytes, &header), symbol.place)
        }
        _ => &bytes[..0],
    }
}
