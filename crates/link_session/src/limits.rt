//! The limits of a session.
ghost use Rattle.std.specs.{Prelude.{◌≡◌, ◌+◌, ◌*◌, ◌^◌, ◌<◌, ◌≤◌, ◌++◌, ◌&&◌, not, length, nat_lt, bytes_eq, IfOk}, List.list_any};
ghost use Rattle.std.specs.Map.{keys_of};
ghost use Rattle.indexmap.specs.IndexMap.{spare};
ghost use Rattle.aout_core.specs.WellFormed.{is_external};
ghost use Rattle.tool_options.specs.NameLists.{is_among};
ghost use Rattle.link_session.specs.{Sessions.IsObject, internal.Fields.{image_in, IsSmall}};
ghost use Rattle.link_session.specs.internal.Additions.{external_names, new_count, next_limit};
ghost use Rattle.link_session.specs.internal.NewNames.{with_entered, with_new};

use crate::entry::AddFault;
use crate::mention::mention;
use crate::merged::{Externals, Merged};
use crate::state::State;
use aout_core::{Name, Object, Symbol};
use indexmap::IndexMap;
use std::alloc::{AllocError, Global};

/// The most bytes of text, of data and of bss in a session.
pub const MOST_BYTES: usize = 65_534;

/// The most external names in a session, forced names counted.
pub const MOST_NAMES: usize = 65_535;

/// Whether the symbol is external and has the name.
fn is_mention_of(symbol: &Symbol, name: &Name) -> bool
    ensures { result ≡ (is_external symbol.now && bytes_eq name.now symbol.now.name) }
{
    symbol.is_external() && *name == symbol.name
}

/// Whether an external symbol among these has the name.
fn mentions(symbols: &[Symbol], name: &Name) -> bool
    ensures { result ≡ list_any (λ s. is_external s && bytes_eq name.now s.name) symbols.now }
{
    symbols.iter().any(|symbol| is_mention_of(symbol, name))
}

fn contains(externals: &Externals, name: &Name) -> bool
    ensures { result ≡ is_among (keys_of externals.now.entries) name.now }
{
    externals.contains_key(name)
}

/// Whether a symbol is the first to mention its name, after these externals and these symbols.
fn is_new(externals: &Externals, before: &[Symbol], symbol: &Symbol) -> bool
    ensures { result ≡ (is_external symbol.now && not
        (is_among (keys_of externals.now.entries ++ external_names before.now) symbol.now.name)) }
{
    symbol.is_external() && !(contains(externals, &symbol.name) || mentions(before, &symbol.name))
}

/// How many names the symbols would add. This takes no memory, and time quadratic in their number.
fn count_again(externals: &Externals, symbols: &[Symbol]) -> usize
    requires { 12 * length symbols.now < 2 ^ 16 }
    ensures { result ≡ new_count (keys_of externals.now.entries) symbols.now }
{
    let mut count = 0;
    for (i, symbol) in symbols.iter().enumerate() {
        if is_new(externals, &symbols[..i], symbol) {
            count += 1;
        }
    }
    count
}

/// Enters a name, if it is not there. There is space for it.
fn enter_name(names: &mut Externals, name: Name)
    requires { 0 < spare names.old }
    ensures names { keys_of names.new.entries ≡ with_entered (keys_of names.old.entries) name }
    ensures left { spare names.old ≤ spare names.new + 1 }
{
    mention(names, name, State::Wanted(0));
}

/// Enters the name that a symbol adds to these externals, if it adds one. There is space for it.
fn enter_new(fresh: &mut Externals, externals: &Externals, symbol: &Symbol)
    requires { 0 < spare fresh.old }
    ensures names { keys_of fresh.new.entries
        ≡ with_new (keys_of externals.now.entries) (keys_of fresh.old.entries) symbol.now }
    ensures left { spare fresh.old ≤ spare fresh.new + 1 }
{
    if symbol.is_external() && !contains(externals, &symbol.name) {
        enter_name(fresh, symbol.name);
    }
}

/// How many names the symbols would add. An error says that memory ran out for these names.
fn count_entered(
    externals: &Externals,
    symbols: &[Symbol],
    alloc: Global,
) -> Result<usize, AllocError>
    ensures { IfOk result (λ count. count ≡ new_count (keys_of externals.now.entries) symbols.now) }
{
    let mut fresh: Externals = IndexMap::new(alloc);
    fresh.reserve(symbols.len())?;
    for symbol in symbols {
        enter_new(&mut fresh, externals, symbol);
    }
    Ok(fresh.len())
}

/// How many names the symbols would add. Time is linear in their number, and quadratic only if memory runs out.
fn count_new(externals: &Externals, symbols: &[Symbol], alloc: Global) -> usize
    requires { 12 * length symbols.now < 2 ^ 16 }
    ensures { result ≡ new_count (keys_of externals.now.entries) symbols.now }
{
    match count_entered(externals, symbols, alloc) {
        Ok(count) => count,
        Err(_) => count_again(externals, symbols),
    }
}

/// Whether the names would be too many. They are counted only if there are so many symbols that they could be.
fn names_full(externals: &Externals, symbols: &[Symbol], alloc: Global) -> bool
    requires { 12 * length symbols.now < 2 ^ 16 }
    ensures { result ≡ nat_lt 65535
        (length externals.now.entries + new_count (keys_of externals.now.entries) symbols.now) }
{
    let known = externals.len();
    MOST_NAMES < known + symbols.len() && MOST_NAMES < known + count_new(externals, symbols, alloc)
}

/// The first limit that the image passes with this object, if it passes one.
pub(crate) fn limit_passed(image: &Merged, object: &Object, alloc: Global) -> Option<AddFault>
    requires { IsSmall (image_in image.now) }
    ensures limit { result ≡ next_limit (image_in image.now) object.now }
    ensures object { IsObject object.now }
{
    let file = object.file();
    let header = file.header();
    if MOST_BYTES < 2 * image.text_cells.len() + header.text_size as usize {
        return Some(AddFault::TextFull);
    }
    if MOST_BYTES < 2 * image.data_cells.len() + header.data_size as usize {
        return Some(AddFault::DataFull);
    }
    if MOST_BYTES < image.bss_total as usize + header.bss_size as usize {
        return Some(AddFault::BssFull);
    }
    if names_full(&image.externals, file.symbols(), alloc) {
        return Some(AddFault::NamesFull);
    }
    None
}
