//! The whole map as records.
ghost use Rattle.std.specs.Prelude.{IfOk};
ghost use Rattle.link_maps.specs.Maps.{AreRecords};

use crate::limit_records::{LimitRecord, limits_of};
use crate::map::LinkMap;
use crate::members::Objects;
use crate::name_records::{NameRecord, name_records};
use crate::records::{ObjectRecord, UseRecord, object_records, use_records};
use link_out::Options;
use std::alloc::{AllocError, Global};

/// The map of a link as records.
#[derive(Drop)]
pub struct MapRecords {
    pub objects: Vec<ObjectRecord>,
    /// In their order.
    pub names: Vec<NameRecord>,
    /// The uses of each name, in the order of the names; each before the words of its object that refer to the name.
    pub uses: Vec<UseRecord>,
    pub limits: Vec<LimitRecord>,
}

/// The records of the map of these objects, which `map_of` gave.
///
/// An error: out of memory.
pub fn records_of(
    alloc: Global,
    whole: &LinkMap,
    objects: &Objects,
    options: &Options,
) -> Result<MapRecords, AllocError>
    ensures { IfOk result (λ records. AreRecords objects.now options.now whole.now records) }
{
    let groups = whole.by_name(alloc)?;
    Ok(MapRecords {
        objects: object_records(alloc, &objects.all(alloc)?, &whole.places)?,
        names: name_records(alloc, whole, &objects.session, &groups)?,
        uses: use_records(alloc, &whole.places, &groups)?,
        limits: limits_of(alloc, whole, objects, options)?,
    })
}
