//! The names of a map as records.
ghost use Rattle.std.specs.Prelude.{◌≡◌, map as mapped, position, slice_get, IfOk};
ghost use Rattle.link_maps.specs.Records.{after, bit, definer, first_user, is_user, name_in, name_state, next_definer, object_at, record_of};
ghost use Rattle.link_maps.specs.Groups.{groups_of};

use crate::map::LinkMap;
use crate::names::{first_definition, stays_undefined};
use crate::records::{number_or_none, padded};
use crate::uses::Use;
use aout_core::Name;
use link_session::Session;
use std::alloc::{AllocError, Global};

/// A name.
#[repr(C)]
#[derive(Clone, Copy, Debug, PartialEq, Eq)]
pub struct NameRecord {
    /// The name, filled up with NULs.
    pub name: [u8; 8],
    /// The number of the object that defines it first; the largest number if none does.
    pub definer: usize,
    /// The number of the object that defines it next, likewise.
    pub next_definer: usize,
    /// The number of the first object with a symbol of the name that does not define it, likewise.
    pub user: usize,
    /// 1 if the table of the link has it, and 2 if it stays undefined, and 4 if it is multiply defined.
    pub state: u32,
    /// The type word of its symbol in that table; 0 if it is not there.
    pub type_bits: u16,
    /// The value of that symbol, likewise.
    pub value: u16,
}

fn object_at(uses: &[Use], place: Option<usize>) -> usize
    ensures { result ≡ object_at uses.now place }
{
    let Some(place) = place else {
        return number_or_none(None);
    };
    match uses.get(place) {
        Some(used) => number_or_none(used.object),
        None => number_or_none(None),
    }
}

/// The object of the first definition.
fn definer(uses: &[Use]) -> usize
    ensures { result ≡ definer uses.now }
{
    object_at(uses, first_definition(uses))
}

fn after(uses: &[Use], place: Option<usize>) -> &[Use]
    ensures { result.now ≡ after uses.now place }
{
    match place {
        Some(place) if place < uses.len() => &uses[place + 1..],
        _ => &[],
    }
}

/// The object of the definition after the first one.
fn next_definer(uses: &[Use]) -> usize
    ensures { result ≡ next_definer uses.now }
{
    definer(after(uses, first_definition(uses)))
}

fn is_user(used: &Use) -> bool
    ensures { result ≡ is_user used.now }
{
    used.object.is_some() && !used.is_definition()
}

/// The place of the first symbol of an object that does not define the name.
fn user_place(uses: &[Use]) -> Option<usize>
    ensures { result ≡ position is_user uses.now }
{
    uses.iter().position(|used| is_user(used))
}

/// The first object that has a symbol of the name and does not define it.
fn first_user(uses: &[Use]) -> usize
    ensures { result ≡ first_user uses.now }
{
    object_at(uses, user_place(uses))
}

fn bit(is_set: bool, number: u32) -> u32
    ensures { result ≡ bit is_set number }
{
    if is_set { number } else { 0 }
}

fn name_state(is_placed: bool, is_multiple: bool, uses: &[Use]) -> u32
    ensures { result ≡ name_state is_placed is_multiple uses.now }
{
    bit(is_placed, 1) + (bit(stays_undefined(uses), 2) + bit(is_multiple, 4))
}

/// The name of the first of these uses.
pub(crate) fn name_in(uses: &[Use]) -> Name
    ensures { result ≡ name_in (slice_get uses.now 0) }
{
    match uses.first() {
        Some(first) => first.symbol.name,
        None => Name::from_bytes(b""),
    }
}

fn name_record(map: &LinkMap, session: &Session, uses: &[Use]) -> NameRecord
    ensures { result ≡ record_of map.now.outcome session.now uses.now }
{
    let name = &name_in(uses);
    let row = map.row(session, name);
    let (type_bits, value) = match &row {
        Some(row) => (row.type_bits, row.value),
        None => (0, 0),
    };
    NameRecord {
        name: padded(name),
        definer: definer(uses),
        next_definer: next_definer(uses),
        user: first_user(uses),
        state: name_state(row.is_some(), map.is_multiple(session, name), uses),
        type_bits,
        value,
    }
}

/// The names. An error: out of memory.
pub(crate) fn name_records(
    alloc: Global,
    map: &LinkMap,
    session: &Session,
    groups: &[&[Use]],
) -> Result<Vec<NameRecord>, AllocError>
    ensures { IfOk result (λ records.
        records.items ≡ mapped (record_of map.now.outcome session.now) (groups_of groups.now)) }
{
    let mut records = Vec::new(alloc);
    for uses in groups {
        records.push(name_record(map, session, uses))?;
    }
    Ok(records)
}
