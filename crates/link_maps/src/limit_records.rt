//! The limits of a link as records, with what all objects use of each.
ghost use Rattle.std.specs.Prelude.{◌≡◌, ◌++◌, map as map_all, IfOk, OnOk};
ghost use Rattle.link_maps.specs.MapLimits.{file_limits, limit, link_limits, map_limits, size_limits};
ghost use Rattle.link_maps.specs.Members.{all_of, member_of, no_places, places_after};

use crate::map::LinkMap;
use crate::members::{Listed, Objects};
use crate::outcome::{Outcome, largest_number};
use crate::places::Places;
use link_out::{LAST_ADDRESS, LinkFault, Linked, MOST_NUMBER, MOST_ROWS, Options};
use link_session::{MOST_BYTES, MOST_NAMES, Session};
use std::alloc::{AllocError, Global};

/// A limit, and how much of it is used.
#[repr(C)]
#[derive(Clone, Copy, Debug, PartialEq, Eq)]
pub struct LimitRecord {
    pub used: u64,
    pub most: u64,
    /// 1 for the bytes of text, 2 for those of data, 3 for those of bss, 4 for the end of bss, 5 for the symbols of the file, 6 for its
    /// largest symbol number, and 7 for the external names.
    pub kind: u32,
}

/// The bytes of all objects in each segment.
fn sums_of(all: &[Listed<'_>]) -> Places
    ensures { result ≡ places_after no_places (map_all member_of all.now) }
{
    let mut sums = Places::NONE;
    for object in all {
        sums = sums.next(object.file.header());
    }
    sums
}

fn limit(kind: u32, used: u64, most: u64) -> LimitRecord
    ensures { result ≡ limit kind used most }
{
    LimitRecord { used, most, kind }
}

/// The limits of segments.
fn size_limits(alloc: Global, sums: Places) -> Result<Vec<LimitRecord>, AllocError>
    ensures { IfOk result (λ limits. limits.items ≡ size_limits sums) }
{
    let mut limits = Vec::new(alloc);
    limits.push(limit(1, sums.text, MOST_BYTES as u64))?;
    limits.push(limit(2, sums.data, MOST_BYTES as u64))?;
    limits.push(limit(3, sums.bss, MOST_BYTES as u64))?;
    Ok(limits)
}

/// Appends the limits of a file that is made.
fn put_file(
    limits: &mut Vec<LimitRecord>,
    is_relocatable: bool,
    linked: &Result<Linked, LinkFault>,
) -> Result<(), AllocError>
    ensures { OnOk result
        (limits.new.items ≡ limits.old.items ++ file_limits is_relocatable linked.now) }
{
    let Ok(linked) = linked else {
        return Ok(());
    };
    limits.push(limit(5, linked.file.symbols().len() as u64, MOST_ROWS as u64))?;
    if is_relocatable {
        let number = u64::from(largest_number(&linked.file));
        limits.push(limit(6, number, u64::from(MOST_NUMBER)))?;
    }
    Ok(())
}

/// Appends the limits that only a link of all objects has.
fn put_link(
    limits: &mut Vec<LimitRecord>,
    is_relocatable: bool,
    session: &Session,
    outcome: &Option<Outcome>,
) -> Result<(), AllocError>
    ensures { OnOk result (limits.new.items
        ≡ limits.old.items ++ link_limits is_relocatable session.now outcome.now) }
{
    let Some(outcome) = outcome else {
        return Ok(());
    };
    limits.push(limit(4, outcome.bases.bss_end, LAST_ADDRESS))?;
    put_file(limits, is_relocatable, &outcome.linked)?;
    let names = u64::from(session.external_count());
    limits.push(limit(7, names, MOST_NAMES as u64))?;
    Ok(())
}

/// The limits, with what all objects use of each.
///
/// An error: out of memory.
pub fn limits_of(
    alloc: Global,
    map: &LinkMap,
    objects: &Objects,
    options: &Options,
) -> Result<Vec<LimitRecord>, AllocError>
    ensures { IfOk result (λ limits. limits.items ≡ map_limits options.now.relocatable
        objects.now.session (map_all member_of (all_of objects.now)) map.now.outcome) }
{
    let mut limits = size_limits(alloc, sums_of(&objects.all(alloc)?))?;
    put_link(
        &mut limits,
        options.is_relocatable(),
        &objects.session,
        &map.outcome,
    )?;
    Ok(limits)
}
