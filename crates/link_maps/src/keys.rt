//! The words of an object that lead somewhere, found by where they lead.
ghost use Rattle.std.specs.Prelude.{◌≡◌, eqb, OnOk};
ghost use Rattle.std.specs.{List.{filter, Sorted.IsSortedByKey}, Ordering.nat_cmp};
ghost use Rattle.link_maps.specs.internal.Keys.{AreByKey, key_of, place_key, symbol_key};

use crate::leads::{Aim, Lead};
use aout_core::Symbol;
use std::alloc::AllocError;

/// The key of an address of the segment with this number of the type word.
fn place_key(segment: u16, address: u16) -> usize
    ensures { result ≡ place_key segment address }
{
    65536 * usize::from(segment) + usize::from(address)
}

/// The key of all words that lead to the symbol with a number: that of its address, if it is one of a segment.
pub(crate) fn symbol_key(number: usize, symbol: &Symbol) -> usize
    ensures { result ≡ symbol_key number symbol.now }
{
    let segment = symbol.type_bits % 0o40;
    if segment < 2 {
        number
    } else {
        place_key(segment, symbol.value)
    }
}

fn key_of(symbols: &[Symbol], lead: &Lead) -> usize
    ensures { result ≡ key_of symbols.now lead.now }
{
    match lead.aim {
        Aim::Numbered(number) => {
            let number = usize::from(number);
            match symbols.get(number) {
                Some(symbol) => symbol_key(number, symbol),
                None => number,
            }
        }
        Aim::Addressed(segment, address) => place_key(segment.number(), address),
    }
}

/// Sorts the words of an object with these symbols by their keys; those with one key keep their order.
pub(crate) fn sort_by_key(leads: &mut Vec<Lead>, symbols: &[Symbol]) -> Result<(), AllocError>
    ensures { OnOk result (AreByKey symbols.now leads.old.items leads.new.items) }
{
    leads.sort_by_key(|lead| key_of(symbols, lead))
}

/// Those with a key, of words in the order of their keys.
pub(crate) fn with_key<'a>(leads: &'a [Lead], symbols: &[Symbol], key: usize) -> &'a [Lead]
    requires { IsSortedByKey (key_of symbols.now) nat_cmp leads.now }
    ensures { result.now ≡ filter (λ l. eqb (key_of symbols.now l) key) leads.now }
{
    let rest = &leads[leads.partition_point(|lead| key_of(symbols, lead) < key)..];
    &rest[..rest.partition_point(|lead| key_of(symbols, lead) <= key)]
}
