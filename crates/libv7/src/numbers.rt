//! Numbers of objects by the names that they define or use.
ghost use Rattle.std.specs.Prelude.{◌≡◌, IfOk, OnOk};
ghost use Rattle.link_session.specs.Labelled.{objects};
ghost use Rattle.libv7.specs.{FindingPlaces.is_shown, internal.Numbered.{AreNumbers, PutsObject, PutsSymbol}};

use aout_core::{Name, Segment, Symbol};
use indexmap::IndexMap;
use link_session::Entry;
use std::alloc::{AllocError, Global};

/// For each name the number of the first object with a symbol of it.
pub(crate) type Numbers = IndexMap<Name, usize>;

/// Whether a symbol is external, and a definition if only these are looked for.
fn is_shown(definitions: bool, symbol: &Symbol) -> bool
    ensures { result ≡ is_shown definitions symbol.now }
{
    symbol.is_external() && (!definitions || symbol.segment() != Segment::Undefined)
}

/// Puts in the number of an object that has this symbol.
fn put_symbol(
    numbers: &mut Numbers,
    definitions: bool,
    number: usize,
    symbol: &Symbol,
) -> Result<(), AllocError>
    ensures { OnOk result (PutsSymbol definitions number symbol.now numbers.old numbers.new) }
{
    if is_shown(definitions, symbol) {
        numbers.insert(symbol.name, number)?;
    }
    Ok(())
}

/// Puts in the number of an object for each name that it shows.
fn put_object(
    numbers: &mut Numbers,
    definitions: bool,
    number: usize,
    symbols: &[Symbol],
) -> Result<(), AllocError>
    ensures { OnOk result (PutsObject definitions number symbols.now numbers.old numbers.new) }
{
    for symbol in symbols {
        put_symbol(numbers, definitions, number, symbol)?;
    }
    Ok(())
}

/// For each name the number of the first object with a symbol of it, or with a definition. The objects are put in from the last to the
/// first. An error: out of memory.
pub(crate) fn numbers_of(
    alloc: Global,
    definitions: bool,
    entries: &[Entry],
) -> Result<Numbers, AllocError>
    ensures { IfOk result (λ numbers. AreNumbers definitions 0 (objects entries.now) numbers) }
{
    let mut numbers = IndexMap::new(alloc);
    let mut number = entries.len();
    while number > 0 {
        number -= 1;
        put_object(
            &mut numbers,
            definitions,
            number,
            entries[number].object().file().symbols(),
        )?;
    }
    Ok(numbers)
}
