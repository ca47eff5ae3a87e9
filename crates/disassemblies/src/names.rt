//! The symbols that name values, in the order of their segments and values.
ghost use Rattle.std.specs.Prelude.{◌≡◌, ◌≤◌, length, take, drop, not, slice_get, IfOk};
ghost use Rattle.std.specs.List.{filter, position, Sorted.IsSortedByKey};
ghost use Rattle.aout_core.specs.WellFormed.{is_external};
ghost use Rattle.disassemblies.specs.Naming.{is_at, symbol_at};
ghost use Rattle.disassemblies.specs.internal.{Nearest.IsNearest, Ordered.{key, key_cmp, is_before, is_between, AreOrdered}};

use aout_core::{Segment, Symbol};
use std::alloc::{AllocError, Global};

/// Whether a symbol is before a value of a segment, which is a number of the type word.
fn is_before(symbol: &Symbol, number: u16, value: usize) -> bool
    ensures { result ≡ is_before number value symbol.now }
{
    let of = symbol.type_bits % 0o40;
    // without branches, as nobody can guess which way they go
    (of < number) | ((of == number) & (usize::from(symbol.value) < value))
}

/// How many of these symbols in order are before a value of a segment.
fn count_before(ordered: &[Symbol], number: u16, value: usize) -> usize
    requires { IsSortedByKey key key_cmp ordered.now }
    ensures bound { result ≤ length ordered.now }
    ensures front { take result ordered.now ≡ filter (λ s. is_before number value s) ordered.now }
    ensures rest { drop result ordered.now ≡ filter (λ s. not (is_before number value s)) ordered.now }
{
    ordered.partition_point(|symbol| is_before(symbol, number, value))
}

/// The same, in few steps if at most one is before it.
fn count_near(ordered: &[Symbol], number: u16, value: usize) -> usize
    requires { IsSortedByKey key key_cmp ordered.now }
    ensures bound { result ≤ length ordered.now }
    ensures front { take result ordered.now ≡ filter (λ s. is_before number value s) ordered.now }
    ensures rest { drop result ordered.now ≡ filter (λ s. not (is_before number value s)) ordered.now }
{
    if ordered.len() < 2 || is_before(&ordered[1], number, value) {
        return count_before(ordered, number, value);
    }
    if is_before(&ordered[0], number, value) {
        return 1;
    }
    0
}

fn first_external(symbols: &[Symbol]) -> Option<usize>
    ensures { result ≡ position (λ s. is_external s) symbols.now }
{
    symbols.iter().position(|symbol| symbol.is_external())
}

fn symbol_of(symbols: &[Symbol], place: usize) -> Option<Symbol>
    ensures { result ≡ slice_get symbols.now place }
{
    symbols.get(place).copied()
}

/// Symbols that are found by their segments and values, in time in proportion to the logarithm of how many there are.
#[derive(Drop)]
pub struct Names<'a> {
    pub symbols: &'a [Symbol],
    /// The same by their segments and values; those with one value are in the order of the table.
    ordered: Vec<Symbol>,
    ghost are_ordered: { AreOrdered symbols.now ordered.items },
}

impl<'a> Names<'a> {
    /// These symbols. An error: out of memory.
    pub fn new(alloc: Global, symbols: &'a [Symbol]) -> Result<Names<'a>, AllocError>
        ensures { IfOk result (λ n. n.symbols.now ≡ symbols.now) }
    {
        let mut ordered = Vec::from_slice(alloc, symbols)?;
        ordered.sort_by_key(|symbol| (symbol.type_bits % 0o40, symbol.value))?;
        Ok(Names { symbols, ordered })
    }

    /// The symbols of a segment from one value up to another, by their values.
    pub(crate) fn between(&self, segment: Segment, from: usize, to: usize) -> &[Symbol]
        ensures { result.now ≡ filter (λ s. is_between segment from to s) self.now.ordered.items }
    {
        let number = segment.number();
        let rest = &self.ordered[count_before(&self.ordered, number, from)..];
        &rest[..count_near(rest, number, to)]
    }

    /// The symbols of a segment at an address, in the order of the table.
    fn at(&self, segment: Segment, address: u16) -> &[Symbol]
        ensures { result.now ≡ filter (λ s. is_at segment address s) self.now.symbols.now }
    {
        let address = usize::from(address);
        self.between(segment, address, address + 1)
    }

    /// The symbol that names an address of a segment, or an absolute number: an external one before the others, and then the
    /// first of the table.
    pub(crate) fn symbol_at(&self, segment: Segment, value: u16) -> Option<Symbol>
        ensures { result ≡ symbol_at self.now.symbols.now segment value }
    {
        let symbols = self.at(segment, value);
        match first_external(symbols) {
            Some(place) => symbol_of(symbols, place),
            None => symbol_of(symbols, 0),
        }
    }

    /// The nearest value of a segment's symbols at an address or fewer than so many bytes before it.
    pub(crate) fn nearest(&self, segment: Segment, address: u16, within: usize) -> Option<u16>
        requires { within ≤ 65536 }
        ensures { IsNearest self.now.symbols.now segment address within result }
    {
        let end = usize::from(address) + 1;
        let near = self.between(segment, end.saturating_sub(within), end);
        match near.last() {
            Some(symbol) => Some(symbol.value),
            None => None,
        }
    }
}
