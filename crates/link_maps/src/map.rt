//! The whole map.
ghost use Rattle.std.specs.Prelude.{◌≡◌, is_some, not, option_copied, IfOk, IfSome};
ghost use Rattle.link_maps.specs.{Groups.groups_of, Maps.IsMapOf, Records.by_name};
ghost use Rattle.link_maps.specs.Rows.{IsOutcome, bases_of, is_multiple_in, linked_in, reserved_by, row_among, rows_in};
ghost use Rattle.tool_options.specs.NameLists.{is_among};

use crate::groups::by_name;
use crate::members::Objects;
use crate::outcome::{Outcome, outcome_of, row_at};
use crate::places::{Places, places_of};
use crate::uses::{Use, uses_of};
use aout_core::{Name, Symbol};
use link_out::{Bases, Linked, Options};
use link_session::{Forced, Session};
use std::alloc::{AllocError, Global};

/// The map of a link.
#[derive(Drop)]
pub struct LinkMap {
    /// Where the segments of each object lie, in the order of `Objects::all`.
    pub places: Vec<Places>,
    /// The uses of all names, in the order of the names; those of one name in the order of the objects, forced ones first.
    pub uses: Vec<Use>,
    /// What becomes of the link, if no object is refused.
    pub outcome: Option<Outcome>,
}

/// What becomes of the link of objects, if none is refused. An error: out of memory.
fn outcome_unless_refused(
    alloc: Global,
    objects: &Objects,
    options: &Options,
) -> Result<Option<Outcome>, AllocError>
    ensures made { IfOk result (λ outcome. is_some outcome ≡ not (is_some objects.now.refused)) }
    ensures outcome { IfOk result (λ outcome.
        IfSome outcome (λ o. IsOutcome o objects.now.session options.now)) }
{
    if objects.refused.is_some() {
        return Ok(None);
    }
    let outcome = outcome_of(alloc, &objects.session, options)?;
    Ok(Some(outcome))
}

impl LinkMap {
    /// The link, if one is made.
    pub fn linked(&self) -> Option<&Linked>
        ensures { option_copied result ≡ linked_in self.now.outcome }
    {
        match &self.outcome {
            Some(outcome) => match &outcome.linked {
                Ok(linked) => Some(linked),
                Err(_) => None,
            },
            None => None,
        }
    }

    /// The rows of the externals by first mention; none if the link does not fit.
    pub fn rows(&self) -> &[Symbol]
        ensures { result.now ≡ rows_in self.now.outcome }
    {
        match &self.outcome {
            Some(outcome) => match &outcome.externals {
                Some(rows) => rows,
                None => &[],
            },
            None => &[],
        }
    }

    /// The names of the linker that are defined or common, if there is a link.
    fn reserved(&self) -> &[Name]
        ensures { result.now ≡ reserved_by (linked_in self.now.outcome) }
    {
        match self.linked() {
            Some(linked) => &linked.report.reserved,
            None => &[],
        }
    }

    /// The uses of each name, in the order of the names. Make them once for all that is asked of a map.
    ///
    /// An error: out of memory.
    pub fn by_name(&self, alloc: Global) -> Result<Vec<&[Use]>, AllocError>
        ensures { IfOk result (λ groups. groups_of groups.items ≡ by_name self.now.uses.items) }
    {
        by_name(alloc, &self.uses)
    }

    /// The row of a name in the link of a session, if it has one.
    pub fn row(&self, session: &Session, name: &Name) -> Option<Symbol>
        ensures { result ≡ row_among (rows_in self.now.outcome) session.now name.now }
    {
        row_at(self.rows(), session.find(name))
    }

    /// Whether the report of the link of a session has a name among those multiply defined.
    pub fn is_multiple(&self, session: &Session, name: &Name) -> bool
        ensures { result ≡ is_multiple_in self.now.outcome session.now name.now }
    {
        is_in(session.multiples(), name) || is_in(self.reserved(), name)
    }
}

fn is_in(names: &[Name], name: &Name) -> bool
    ensures { result ≡ is_among names.now name.now }
{
    names.iter().any(|one| one == name)
}

/// Where the segments of a link lie, if there is one.
pub(crate) fn bases_of(outcome: &Option<Outcome>) -> Option<Bases>
    ensures { result ≡ bases_of outcome.now }
{
    match outcome {
        Some(outcome) => Some(outcome.bases),
        None => None,
    }
}

/// The map of the link of these objects, whose session has these forced names. A link that is refused has a map too.
///
/// An error: out of memory.
pub fn map_of(
    alloc: Global,
    all: &Objects,
    forced: &Forced,
    options: &Options,
) -> Result<LinkMap, AllocError>
    ensures { IfOk result (λ map. IsMapOf all.now forced.now options.now map) }
{
    let outcome = outcome_unless_refused(alloc, all, options)?;
    let listed = all.all(alloc)?;
    Ok(LinkMap {
        places: places_of(alloc, bases_of(&outcome), &listed)?,
        uses: uses_of(alloc, forced.names(), &listed)?,
        outcome,
    })
}
