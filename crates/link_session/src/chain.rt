//! Chains of the cells that wait for one name: a head names the first, and beside each cell a link names the next.
//!
//! So an object that defines the name binds these cells without a search of the image. Here cells 1 and 4 of text and
//! then cell 0 of data were appended, and wait for external 2:
//!
//! ```text
//!     heads[2] ──> data 0 ──> text 4 ──> text 1
//!          link:   text 4     text 1     None
//! ```
//!
//! - A cell that is appended comes first: it becomes the head, and its link is the old head.
//! - A definition binds the cells of the chain in this order and marks each, and the head becomes `None`. The links of
//!   the bound cells stay.
//! - A withdrawal first takes the object's own cells out of the front, the last first. Then it puts the marks back, the
//!   last first: each cell becomes the head again, and its link still names the cell after it.
ghost use Rattle.std.specs.Prelude.{◌≡◌, ◌≤◌, length, slice_index_or, slice_set, None, Some, vec_capacity};
ghost use Rattle.link_session.specs.{internal.Chains.{head_for, with_head, unthreaded}, internal.Threads.grown_heads};

use crate::cell::{Cell, Target};
use crate::mark::Place;
use std::marker::Model;

/// The next place of a chain, as one number of four bytes: 0 is the end, 1 plus its index is a word of text, and 65,537 plus its
/// index a word of data.
#[derive(Clone, Copy)]
pub(crate) struct Link {
    coded: u32,
}

impl Model for Link {
    ghost use Rattle.std.specs.Prelude.{Option};
    ghost use Rattle.link_session.specs.declared.mark.Place.{Place};

    ghost Value = { Option Place };

    ghost use Rattle.std.specs.Prelude.{◌≡◌, ◌≤◌, ◌*◌};
    ghost use Rattle.link_session.specs.internal.Links.{linked_place, link_code};

    ghost view = { λ a. linked_place a.coded };

    ghost invariant = { λ a. (link_code (linked_place a.coded) ≡ a.coded) × (a.coded ≤ 131072) };

    ghost inverse = { λ next. record { coded = link_code next } };

    ghost inverse_ok = { λ a h i. record { coded = h.0 i } };
}

impl Link {
    pub(crate) fn end() -> Link
        ensures { result ≡ None }
    {
        Link { coded: 0 }
    }

    #[tactic(auto, using(crate::proofs::LinkLemmas::text_link, crate::proofs::LinkLemmas::data_link))]
    pub(crate) fn to(place: Place) -> Link
        ensures { result ≡ Some place }
    {
        match place {
            Place::InText(index) => Link {
                coded: index as u32 + 1,
            },
            Place::InData(index) => Link {
                coded: index as u32 + 65_537,
            },
        }
    }

    /// The place that it leads to, if it leads on.
    pub(crate) fn place(self) -> Option<Place>
        ensures { result ≡ self }
    {
        if self.coded == 0 {
            return None;
        }
        let index = self.coded - 1;
        if index < 65_536 {
            return Some(Place::InText(index as u16));
        }
        Some(Place::InData((index - 65_536) as u16))
    }
}

pub(crate) fn link_in(links: &[Link], index: u16) -> Link
    ensures { result ≡ slice_index_or links.now index None }
{
    match links.get(index as usize) {
        Some(link) => *link,
        None => Link::end(),
    }
}

/// Lets the chain of the external with this index begin here.
pub(crate) fn begin_chain(heads: &mut [Link], index: u16, link: Link)
    ensures { heads.new ≡ slice_set heads.old index link }
{
    let index = index as usize;
    if index < heads.len() {
        heads[index] = link;
    }
}

/// Gives the externals after the last head a chain without cells. There is space for their heads.
pub(crate) fn grow_heads(heads: &mut Vec<Link>, count: usize)
    requires { count ≤ vec_capacity heads.old }
    ensures { heads.new.items ≡ grown_heads count heads.old.items }
{
    while heads.len() < count {
        heads.push_reserved(Link::end());
    }
}

/// The first place of the chain that a cell with this target waits in.
fn head_of(heads: &[Link], target: Target) -> Link
    ensures { result ≡ head_for target heads.now }
{
    match target {
        Target::External(index) => link_in(heads, index),
        _ => Link::end(),
    }
}

/// Lets the chain that a cell with this target waits in begin here.
pub(crate) fn set_head(heads: &mut [Link], target: Target, link: Link)
    ensures { heads.new ≡ with_head target link heads.old }
{
    if let Target::External(index) = target {
        begin_chain(heads, index, link);
    }
}

/// Puts a cell in front of the chain that it waits in, if it waits, and answers its link.
pub(crate) fn thread(heads: &mut [Link], target: Target, place: Place) -> Link
    ensures link { result ≡ head_for target heads.old }
    ensures heads { heads.new ≡ with_head target (Some place) heads.old }
{
    let link = head_of(heads, target);
    set_head(heads, target, Link::to(place));
    link
}

/// Takes cells out of their chains again, the last first.
pub(crate) fn unthread(cells: &[Cell], links: &[Link], heads: &mut [Link])
    requires { length cells.now ≡ length links.now }
    ensures { heads.new ≡ unthreaded cells.now links.now heads.old }
{
    for i in 0..cells.len() {
        let last = cells.len() - 1 - i;
        set_head(heads, cells[last].target, links[last]);
    }
}
