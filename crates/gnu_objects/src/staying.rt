//! Which symbols stay in the table.
ghost use Rattle.std.specs.Prelude.{◌≡◌, ◌≤◌, ◌<◌, ◌^◌, false, IfOk, length};
ghost use Rattle.gnu_objects.specs.Staying.{is_external, refers, is_needed, is_chosen, counts, stays, staying, count};

use crate::alike::NamedSymbols;
use crate::names::{is_stab, name_at};
use crate::options::Locals;
use crate::symbols::GnuSymbol;
use std::alloc::{AllocError, Global};

/// Whether other files see the symbol.
pub(crate) fn is_external(symbol: &GnuSymbol) -> bool
    ensures { result ≡ is_external symbol.now }
{
    symbol.type_bits / 0o40 % 2 == 1
}

/// Whether a relocation word refers to a symbol by its number.
pub(crate) fn refers(word: u16) -> bool
    ensures { result ≡ refers word }
{
    word / 2 % 8 == 4
}

/// Whether a relocation word refers to symbol `n`.
fn is_needed(words: &[u16], n: u16) -> bool
    ensures { result ≡ is_needed words.now n }
{
    words.iter().any(|word| refers(*word) && *word / 16 == n)
}

/// Whether the options keep a local of this number in an object with these relocation words.
pub(crate) fn is_chosen(locals: Locals, words: &[u16], n: u16) -> bool
    ensures { result ≡ is_chosen locals words.now n }
{
    match locals {
        Locals::KeepAll => true,
        Locals::KeepNeeded => is_needed(words, n),
        Locals::KeepNone => false,
    }
}

/// Whether the name of a symbol counts: it is not for a debugger, and if externals alone count it is external.
pub(crate) fn counts(strings: &[u8], externals: bool, symbol: &GnuSymbol) -> bool
    ensures { result ≡ counts strings.now externals symbol.now }
{
    !is_stab(strings, symbol) && (!externals || is_external(symbol))
}

/// Whether symbol `n` stays.
fn stays(
    named: &NamedSymbols<'_>,
    locals: Locals,
    words: &[u16],
    n: u16,
    symbol: &GnuSymbol,
) -> bool
    requires { named.now.externals ≡ false }
    ensures { result ≡ stays locals named.now.strings.now named.now.symbols.now
        words.now n symbol.now }
{
    !is_stab(named.strings, symbol)
        && (is_external(symbol)
            || (is_chosen(locals, words, n)
                && named
                    .alike_with(name_at(named.strings, symbol.place))
                    .is_none()))
}

pub(crate) fn staying(
    alloc: Global,
    locals: Locals,
    strings: &[u8],
    symbols: &[GnuSymbol],
    words: &[u16],
) -> Result<Vec<bool>, AllocError>
    requires { length symbols.now < 2 ^ 16 }
    ensures value { IfOk result (λ v. v.items ≡ staying locals strings.now symbols.now words.now) }
    ensures count { IfOk result (λ v. length v.items ≡ length symbols.now) }
{
    let named = NamedSymbols::new(alloc, strings, false, symbols)?;
    let mut flags = Vec::new(alloc);
    for (n, symbol) in symbols.iter().enumerate() {
        flags.push(stays(&named, locals, words, n as u16, symbol))?;
    }
    Ok(flags)
}

/// How many stay.
pub(crate) fn count(flags: &[bool]) -> usize
    ensures value { result ≡ count flags.now }
    ensures bound { result ≤ length flags.now }
{
    flags.iter().filter(|stays| **stays).count()
}
