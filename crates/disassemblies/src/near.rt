//! The nearest label before an address.
ghost use Rattle.std.specs.Prelude.{◌≡◌, ◌≤◌};
ghost use Rattle.disassemblies.specs.Near.{bytes_beyond, nearest_label, nearest_within};

use crate::names::Names;
use aout_core::{Segment, Symbol};
use instructions::Reference;

/// The reference to a symbol, and so many bytes beyond it.
fn bytes_beyond(symbol: Option<Symbol>, bytes: u16) -> Option<Reference>
    ensures { result ≡ bytes_beyond symbol bytes }
{
    match symbol {
        Some(symbol) => Some(Reference {
            name: symbol.name,
            offset: bytes,
        }),
        None => None,
    }
}

/// The nearest label of a segment at an address or fewer than so many bytes before it, and the bytes between them.
fn nearest_within(
    names: &Names<'_>,
    segment: Segment,
    address: u16,
    within: usize,
) -> Option<Reference>
    requires { within ≤ 65536 }
    ensures { result ≡ nearest_within names.now.symbols.now segment address within }
{
    match names.nearest(segment, address, within) {
        Some(value) => bytes_beyond(names.symbol_at(segment, value), address - value),
        None => None,
    }
}

/// The nearest label of a segment at an address or fewer than 0400 bytes before it, and the bytes between them.
pub(crate) fn near_reference(
    names: &Names<'_>,
    segment: Segment,
    address: u16,
) -> Option<Reference> {
    nearest_within(names, segment, address, 0o400)
}

impl Names<'_> {
    /// The nearest label of a segment at an address or before it, and the bytes between them: of several at one address an external
    /// one, or else the first of the table.
    #[tactic(auto, unfolding(crate::specs::Near::nearest_label))]
    pub fn nearest_label(&self, segment: Segment, address: u16) -> Option<Reference>
        ensures { result ≡ nearest_label self.now.symbols.now segment address }
    {
        nearest_within(self, segment, address, usize::from(address) + 1)
    }
}
