//! The objects of the names of a report.
ghost use Rattle.std.specs.Prelude.{◌≡◌, IfOk};
ghost use Rattle.link_out.specs.Outcomes.{report_names};
ghost use Rattle.link_session.specs.Labelled.{objects};
ghost use Rattle.libv7.specs.FindingPlaces.{finding_places, place_at, places_with};
ghost use Rattle.libv7.specs.internal.Numbered.{IsIndex, found};

use crate::findings::reported_names;
use crate::numbers::{Numbers, numbers_of};
use crate::redefinitions::further_objects;
use aout_core::Name;
use link_out::Report;
use link_session::{Entry, Session};
use std::alloc::{AllocError, Global};

/// What stands for no object.
const NO_OBJECT: usize = usize::MAX;

/// The objects of a name that is reported, by their numbers. The largest number of 64 bits stands for none.
#[repr(C)]
#[derive(Clone, Copy, Debug, PartialEq, Eq)]
pub struct FindingPlace {
    /// The first object that defines the name; if none does, the first that has a symbol of it.
    pub first: usize,
    /// If the name is multiply defined, the object of this further definition.
    pub further: usize,
}

/// For each name the object that defines it first, and the first with a symbol of it.
#[derive(Drop)]
struct Index {
    definers: Numbers,
    users: Numbers,
}

fn index_of(alloc: Global, entries: &[Entry]) -> Result<Index, AllocError>
    ensures { IfOk result (λ index. IsIndex index (objects entries.now)) }
{
    Ok(Index {
        definers: numbers_of(alloc, true, entries)?,
        users: numbers_of(alloc, false, entries)?,
    })
}

/// The number of the object that defines a name first, or else of the first with a symbol of it.
fn found(index: &Index, name: &Name) -> usize
    ensures { result ≡ found index.now name.now }
{
    match index.definers.get(name) {
        Some(number) => *number,
        None => match index.users.get(name) {
            Some(number) => *number,
            None => NO_OBJECT,
        },
    }
}

/// The objects of the name of this index.
fn place_at(index: &Index, numbers: &[usize], place: usize, name: &Name) -> FindingPlace
    ensures { result ≡ place_at (found index.now) numbers.now place name.now }
{
    FindingPlace {
        first: found(index, name),
        further: match numbers.get(place) {
            Some(number) => *number,
            None => NO_OBJECT,
        },
    }
}

/// The objects of these names. The first ones are multiply defined, with these further objects.
#[tactic(auto, using(crate::proofs::ItemLemmas::by_item))]
fn places_with(
    alloc: Global,
    index: &Index,
    numbers: &[usize],
    names: &[(u32, Name)],
) -> Result<Vec<FindingPlace>, AllocError>
    ensures { IfOk result (λ places.
        places.items ≡ places_with (found index.now) numbers.now names.now) }
{
    let mut places = Vec::with_capacity(alloc, names.len())?;
    for (place, reported) in names.iter().enumerate() {
        places.push(place_at(index, numbers, place, &reported.1))?;
    }
    Ok(places)
}

/// The objects of the names of a report on the link of a session, in the order of its lines, and as many.
///
/// An error: out of memory.
pub(crate) fn places_of(
    alloc: Global,
    session: Session,
    report: &Report,
) -> Result<Vec<FindingPlace>, AllocError>
    ensures { IfOk result (λ places. places.items
        ≡ finding_places session.forced (objects session.entries) (report_names report.now)) }
{
    let index = index_of(alloc, session.entries())?;
    let numbers = further_objects(alloc, session)?;
    let names = reported_names(alloc, report)?;
    places_with(alloc, &index, &numbers, &names)
}
