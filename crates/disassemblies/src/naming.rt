//! The symbols that name numbers.
ghost use Rattle.std.specs.Prelude.{◌≡◌};
ghost use Rattle.disassemblies.specs.Naming.{is_at};

use crate::names::Names;
use aout_core::{Segment, Symbol};
use instructions::Reference;

pub(crate) fn is_at(segment: Segment, value: u16, symbol: &Symbol) -> bool
    ensures { result ≡ is_at segment value symbol.now }
{
    symbol.type_bits % 0o40 == segment.number() && symbol.value == value
}

/// The reference to the symbol that names an address of a segment, or an absolute number.
pub(crate) fn reference_at(names: &Names<'_>, segment: Segment, value: u16) -> Option<Reference> {
    match names.symbol_at(segment, value) {
        Some(symbol) => Some(Reference {
            name: symbol.name,
            offset: 0,
        }),
        None => None,
    }
}

/// The reference to an external that the file leaves undefined, and so far beyond it.
pub(crate) fn reference_beyond(symbol: Option<Symbol>, offset: u16) -> Option<Reference> {
    match symbol {
        Some(symbol) if symbol.is_undefined() => Some(Reference {
            name: symbol.name,
            offset,
        }),
        _ => None,
    }
}
