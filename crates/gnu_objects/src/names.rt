//! The names of symbols, and which symbols are for a debugger.
ghost use Rattle.std.specs.{Prelude.{◌≡◌, ◌==◌, position, take}, List.list_any};
ghost use Rattle.aout_core.specs.Names.{before_nul};
ghost use Rattle.gnu_objects.specs.{GnuForm.{name_at, is_stab}, Staying.are_alike};

use crate::symbols::GnuSymbol;

fn nul_at(bytes: &[u8]) -> Option<usize>
    ensures { result ≡ position (λ b. b == 0) bytes.now }
{
    bytes.iter().position(|b| *b == 0)
}

/// The bytes before the first NUL.
#[tactic(auto, using(crate::proofs::NameLemmas::fronts))]
fn before_nul(bytes: &[u8]) -> &[u8]
    ensures value { result.now ≡ before_nul bytes.now }
    ensures no_nul { before_nul result.now ≡ result.now }
{
    match nul_at(bytes) {
        Some(end) => &bytes[..end],
        None => bytes,
    }
}

/// The name at a place of the strings, up to a NUL or the end; at 0 there is none.
pub(crate) fn name_at(strings: &[u8], place: u16) -> &[u8]
    ensures value { result.now ≡ name_at strings.now place }
    ensures no_nul { before_nul result.now ≡ result.now }
{
    let start = usize::from(place).min(strings.len());
    if place == 0 {
        return &strings[..0];
    }
    before_nul(&strings[start..])
}

fn has_colon(name: &[u8]) -> bool
    ensures { result ≡ list_any (λ b. b == 58) name.now }
{
    name.iter().any(|b| *b == b':')
}

/// Whether a symbol is for a debugger.
pub(crate) fn is_stab(strings: &[u8], symbol: &GnuSymbol) -> bool
    ensures { result ≡ is_stab strings.now symbol.now }
{
    symbol.type_bits > 0o44
        || ((symbol.type_bits == 0o40 || symbol.type_bits == 0o44)
            && has_colon(name_at(strings, symbol.place)))
}

/// Whether two names differ, and are equal in eight bytes.
pub(crate) fn are_alike(first: &[u8], second: &[u8]) -> bool
    ensures { result ≡ are_alike first.now second.now }
{
    cut(first) == cut(second) && first != second
}

/// The first eight bytes.
pub(crate) fn cut(name: &[u8]) -> &[u8]
    ensures { result.now ≡ take 8 name.now }
{
    &name[..name.len().min(8)]
}
