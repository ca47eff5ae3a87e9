//! Symbols in GNU's form.
ghost use Rattle.std.specs.Prelude.{◌≡◌, ◌+◌, ◌*◌, ◌≤◌, IfOk, length};
ghost use Rattle.gnu_objects.specs.GnuForm.{symbol_at, symbols_from};

use crate::bytes::word_at;
use std::alloc::{AllocError, Global};

/// A symbol in GNU's form, 8 bytes long. (binutils, pdp11-aout)
#[derive(Clone, Copy, Debug, PartialEq, Eq)]
pub struct GnuSymbol {
    /// The description of a symbol for a debugger, and 0 for any other.
    pub description: u16,
    /// The byte of the table of strings at which the name begins, counted from the table's length; 0 if there is no name.
    pub place: u16,
    /// The type, as in the low byte of the Seventh Edition's type word; above 044 it is that of a symbol for a debugger.
    pub type_bits: u8,
    /// The number of an overlay, or 0.
    pub overlay: u8,
    /// As in the Seventh Edition: an address, a number, or the size of a common.
    pub value: u16,
}

/// The symbol at a place.
pub(crate) fn symbol_at(bytes: &[u8], at: usize) -> GnuSymbol
    requires { at + 8 ≤ length bytes.now }
    ensures { result ≡ symbol_at bytes.now at }
{
    GnuSymbol {
        description: word_at(bytes, at),
        place: word_at(bytes, at + 2),
        type_bits: bytes[at + 4],
        overlay: bytes[at + 5],
        value: word_at(bytes, at + 6),
    }
}

/// So many symbols from a place on.
#[tactic(auto, using(crate::proofs::RowLemmas::rows))]
pub(crate) fn symbols_from(
    alloc: Global,
    bytes: &[u8],
    at: usize,
    count: usize,
) -> Result<Vec<GnuSymbol>, AllocError>
    requires { at + 8 * count ≤ length bytes.now }
    ensures { IfOk result (λ v. v.items ≡ symbols_from bytes.now at count) }
{
    let mut symbols = Vec::new(alloc);
    for n in 0..count {
        symbols.push(symbol_at(bytes, at + 8 * n))?;
    }
    Ok(symbols)
}
