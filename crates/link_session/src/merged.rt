//! The merged image, as the code keeps it.
ghost use Rattle.std.specs.Prelude.{◌≡◌, [], length};
ghost use Rattle.link_session.specs.internal.Chains.{cell_at, link_at, IsWithin};
ghost use Rattle.link_session.specs.internal.Fields.{image_in, threads_in, no_threads, sizes_of};

use crate::cell::Cell;
use crate::chain::{Link, link_in};
use crate::mark::{Mark, Place};
use crate::state::State;
use aout_core::Name;
use indexmap::IndexMap;
use std::alloc::Global;

/// The external names by first mention, each with what is known of it.
pub(crate) type Externals = IndexMap<Name, State>;

/// The merged image of the objects so far.
#[derive(Drop)]
pub(crate) struct Merged {
    pub(crate) text_cells: Vec<Cell>,
    pub(crate) data_cells: Vec<Cell>,
    pub(crate) bss_total: u16,
    pub(crate) externals: Externals,
    pub(crate) multiples: Vec<Name>,
    /// For each cell of text, the place of the next cell that waits for the same name.
    pub(crate) text_links: Vec<Link>,
    /// The same for each cell of data.
    pub(crate) data_links: Vec<Link>,
    /// For each external, the place of the first cell that waits for it.
    pub(crate) heads: Vec<Link>,
    /// Space for the marks of the next addition.
    pub(crate) noted: Vec<Mark>,
    /// Space for the places of the next object's symbols.
    pub(crate) places: Vec<u16>,
}

/// The sizes of an image: what is after them was added later.
#[derive(Clone, Copy)]
pub(crate) struct Sizes {
    pub(crate) text_cells: usize,
    pub(crate) data_cells: usize,
    pub(crate) bss_total: u16,
    pub(crate) externals: usize,
    pub(crate) multiples: usize,
}

impl Merged {
    /// The image of no objects.
    pub(crate) fn new(alloc: Global) -> Merged
        ensures text { (image_in result).text_cells ≡ [] }
        ensures datas { (image_in result).data_cells ≡ [] }
        ensures bss { result.bss_total ≡ 0 }
        ensures names { (image_in result).externals ≡ [] }
        ensures multiples { (image_in result).multiples ≡ [] }
        ensures threads { threads_in result ≡ no_threads }
    {
        Merged {
            text_cells: Vec::new(alloc),
            data_cells: Vec::new(alloc),
            bss_total: 0,
            externals: IndexMap::new(alloc),
            multiples: Vec::new(alloc),
            text_links: Vec::new(alloc),
            data_links: Vec::new(alloc),
            heads: Vec::new(alloc),
            noted: Vec::new(alloc),
            places: Vec::new(alloc),
        }
    }

    pub(crate) fn sizes(&self) -> Sizes
        ensures { result ≡ sizes_of (image_in self.now) }
    {
        Sizes {
            text_cells: self.text_cells.len(),
            data_cells: self.data_cells.len(),
            bss_total: self.bss_total,
            externals: self.externals.len(),
            multiples: self.multiples.len(),
        }
    }

    pub(crate) fn cell_at(&self, place: Place) -> Cell
        requires { IsWithin (length self.now.text_cells.items)
            (length self.now.data_cells.items) place }
        ensures { result ≡ cell_at self.now.text_cells.items self.now.data_cells.items place }
    {
        match place {
            Place::InText(index) => self.text_cells[index as usize],
            Place::InData(index) => self.data_cells[index as usize],
        }
    }

    /// The place of the next cell that waits for the same name as the cell at a place.
    pub(crate) fn link_at(&self, place: Place) -> Link
        ensures { result ≡ link_at self.now.text_links.items self.now.data_links.items place }
    {
        match place {
            Place::InText(index) => link_in(&self.text_links, index),
            Place::InData(index) => link_in(&self.data_links, index),
        }
    }
}
