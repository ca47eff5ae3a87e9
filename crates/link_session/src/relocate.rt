//! The cells of an object's own words, relocated.
ghost use Rattle.std.specs.Prelude.{◌≡◌, ◌+◌, ◌≤◌, ◌++◌, ◌<◌, ◌*◌, ℕ, length, slice_index_or, slice_set, vec_len, vec_capacity, None, Some};
ghost use Rattle.aout_core.specs.WellFormed.{kind_of, symbol_number};
ghost use Rattle.link_session.specs.{Starts.{no_starts, next_starts, shifts_at, shift_by}, Image.state_at};
ghost use Rattle.link_session.specs.{Cells.{name_target, offset_in, segment_target}, internal.Fields.image_in};
ghost use Rattle.link_session.specs.internal.Additions.{next_shifts, no_place, placed_reference, placed_cell, place_at};
ghost use Rattle.link_session.specs.{internal.Chains.{head_for, with_head, threaded}, internal.OwnWords.{own_placed, own_threaded}};

use crate::cell::{Cell, Target};
use crate::chain::{Link, thread};
use crate::mark::Place;
use crate::mention::{NO_PLACE, state_at};
use crate::merged::{Externals, Merged};
use crate::state::State;
use aout_core::{Header, Kind, Object, Reloc, Segment};

/// What is added to an object's own addresses to make them offsets in the merged segments, modulo 65,536.
#[derive(Clone, Copy, Debug)]
pub struct Shifts {
    text: u16,
    data: u16,
    bss: u16,
}

/// Where the segments of an object start in the merged segments, in bytes, modulo 65,536.
#[derive(Clone, Copy, Debug)]
pub struct Starts {
    text: u16,
    data: u16,
    bss: u16,
}

/// What the words of an object refer to: the externals, by the places of the object's symbols, and its own segments.
#[derive(Clone, Copy)]
pub(crate) struct Scope<'a> {
    pub(crate) externals: &'a Externals,
    pub(crate) places: &'a [u16],
    pub(crate) shifts: Shifts,
}

/// The words of a segment of an object, each with its relocation word.
#[derive(Clone, Copy)]
pub(crate) struct Words<'a> {
    pub(crate) segment: Segment,
    pub(crate) words: &'a [u16],
    pub(crate) relocs: &'a [Reloc],
}

impl Shifts {
    /// What is added to an address in this segment; 0 to an absolute one.
    pub fn of(&self, segment: Segment) -> u16
        ensures { result ≡ shift_by self.now segment }
    {
        match segment {
            Segment::TextSeg => self.text,
            Segment::DataSeg => self.data,
            Segment::BssSeg => self.bss,
            Segment::Undefined | Segment::Absolute | Segment::Other => 0,
        }
    }
}

impl Starts {
    /// Those of the first object.
    pub fn first() -> Starts
        ensures { result ≡ no_starts }
    {
        Starts {
            text: 0,
            data: 0,
            bss: 0,
        }
    }

    /// Those of the object after one with this header that starts here.
    pub fn after(&self, header: &Header) -> Starts
        ensures { result ≡ next_starts self.now header.now }
    {
        Starts {
            text: self.text.wrapping_add(header.text_size),
            data: self.data.wrapping_add(header.data_size),
            bss: self.bss.wrapping_add(header.bss_size),
        }
    }

    /// The shifts of an object with this header that starts here.
    pub fn shifts(&self, header: &Header) -> Shifts
        ensures { result ≡ shifts_at self.now header.now }
    {
        let own_bss = header.text_size.wrapping_add(header.data_size);
        Shifts {
            text: self.text,
            data: self.data.wrapping_sub(header.text_size),
            bss: self.bss.wrapping_sub(own_bss),
        }
    }
}

/// The shifts of an object that comes next: its segments are put after those of the image.
pub(crate) fn next_shifts(image: &Merged, object: &Object) -> Shifts
    requires text { 2 * length image.now.text_cells.items ≤ 65534 }
    requires datas { 2 * length image.now.data_cells.items ≤ 65534 }
    ensures { result ≡ next_shifts (image_in image.now) object.now }
{
    let starts = Starts {
        text: (2 * image.text_cells.len()) as u16,
        data: (2 * image.data_cells.len()) as u16,
        bss: image.bss_total,
    };
    starts.shifts(object.file().header())
}

/// The target of a word that refers to a place in the segment.
pub(crate) fn segment_target(segment: Segment) -> Target
    ensures { result ≡ segment_target segment }
{
    match segment {
        Segment::TextSeg => Target::TextSeg,
        Segment::DataSeg => Target::DataSeg,
        Segment::BssSeg => Target::BssSeg,
        Segment::Undefined | Segment::Absolute | Segment::Other => Target::Absolute,
    }
}

/// The place of the name of the symbol with this number.
fn place_of(places: &[u16], number: u16) -> u16
    ensures { result ≡ slice_index_or places.now number no_place }
{
    places.get(number as usize).copied().unwrap_or(NO_PLACE)
}

/// What a reference to the external at a place adds to a word, and its target.
fn name_reference(externals: &Externals, place: u16) -> (u16, Target)
    ensures offset { result.0 ≡ offset_in (state_at externals.now.entries place) }
    ensures target { result.1 ≡ name_target (state_at externals.now.entries place) place }
{
    match state_at(externals, place) {
        State::Defined(segment, offset) => (offset, segment_target(segment)),
        State::Wanted(_) => (0, Target::External(place)),
    }
}

/// What a relocation word adds to its word, and the target.
fn reference(scope: &Scope<'_>, reloc: Reloc) -> (u16, Target)
    ensures { result ≡ placed_reference scope.now.externals.now.entries scope.now.places.now
        scope.now.shifts (symbol_number reloc) (kind_of reloc) }
{
    let shifts = scope.shifts;
    match reloc.kind() {
        Some(Kind::TextSeg) => (shifts.text, Target::TextSeg),
        Some(Kind::DataSeg) => (shifts.data, Target::DataSeg),
        Some(Kind::BssSeg) => (shifts.bss, Target::BssSeg),
        Some(Kind::External) => {
            name_reference(scope.externals, place_of(scope.places, reloc.number()))
        }
        Some(Kind::Absolute) | None => (0, Target::Absolute),
    }
}

/// The cell of a word in a segment that has this shift.
fn own_cell(scope: &Scope<'_>, own_shift: u16, word: u16, reloc: Reloc) -> Cell
    ensures { result ≡ placed_cell scope.now.externals.now.entries scope.now.places.now
        scope.now.shifts own_shift word reloc }
{
    if reloc.0 == 0 {
        return Cell {
            value: word,
            target: Target::Absolute,
            pc: false,
        };
    }
    let (offset, target) = reference(scope, reloc);
    let pc = reloc.is_pc();
    let start = if pc { own_shift } else { 0 };
    Cell {
        value: word.wrapping_add(offset).wrapping_sub(start),
        target,
        pc,
    }
}

fn place_at(segment: Segment, index: u16) -> Place
    ensures { result ≡ place_at segment index }
{
    match segment {
        Segment::DataSeg => Place::InData(index),
        _ => Place::InText(index),
    }
}

/// Puts a cell in front of the chain that it waits in, and sets the link with this index. If it does not wait, the link stays
/// as it is: it leads nowhere.
fn link_cell(links: &mut [Link], index: usize, heads: &mut [Link], target: Target, place: Place)
    requires within { index < length links.old }
    requires unlinked { slice_index_or links.old index None ≡ None }
    ensures links { links.new ≡ slice_set links.old index (head_for target heads.old) }
    ensures heads { heads.new ≡ with_head target (Some place) heads.old }
{
    if let Target::External(_) = target {
        links[index] = thread(heads, target, place);
    }
}

/// Fills in the cells of an object's words, each in front of the chain that it waits in, and their links, which lead nowhere
/// so far. So many cells of the segment come before them.
fn fill_cells(
    cells: &mut [Cell],
    links: &mut [Link],
    heads: &mut [Link],
    before: usize,
    scope: &Scope<'_>,
    own: &Words<'_>,
)
    requires beside { length own.now.words.now ≡ length own.now.relocs.now }
    requires cells { length cells.old ≡ length own.now.words.now }
    requires links { length links.old ≡ length own.now.words.now }
    requires unlinked { (k : ℕ) → slice_index_or links.old k None ≡ None }
    requires small { before + length own.now.words.now ≤ 65535 }
    ensures cells { cells.new ≡ own_placed scope.now own.now }
    ensures links { links.new
        ≡ (threaded (place_at own.now.segment) before (own_placed scope.now own.now) heads.old).0 }
    ensures heads { heads.new
        ≡ (threaded (place_at own.now.segment) before (own_placed scope.now own.now) heads.old).1 }
{
    let segment = own.segment;
    let own_shift = scope.shifts.of(own.segment);
    for (i, word) in own.words.iter().enumerate() {
        let cell = own_cell(scope, own_shift, *word, own.relocs[i]);
        let place = place_at(segment, (before + i) as u16);
        link_cell(links, i, heads, cell.target, place);
        cells[i] = cell;
    }
}

/// Appends the cells of an object's words, each in front of the chain that it waits in. There is space for them and
/// for their links.
pub(crate) fn append_cells(
    cells: &mut Vec<Cell>,
    links: &mut Vec<Link>,
    heads: &mut [Link],
    scope: &Scope<'_>,
    own: &Words<'_>,
)
    requires beside { length own.now.words.now ≡ length own.now.relocs.now }
    requires small { length links.old.items + length own.now.words.now ≤ 65535 }
    requires space { vec_len cells.old + length own.now.words.now ≤ vec_capacity cells.old }
    requires links_space { vec_len links.old + length own.now.words.now ≤ vec_capacity links.old }
    ensures cells { cells.new.items ≡ cells.old.items ++ own_placed scope.now own.now }
    ensures links { links.new.items ≡ links.old.items
        ++ (own_threaded own.now (own_placed scope.now own.now) links.old.items heads.old).0 }
    ensures heads { heads.new
        ≡ (own_threaded own.now (own_placed scope.now own.now) links.old.items heads.old).1 }
{
    let empty = Cell {
        value: 0,
        target: Target::Absolute,
        pc: false,
    };
    let kept = cells.len();
    let before = links.len();
    cells.resize(kept + own.words.len(), empty).unwrap();
    links.resize(before + own.words.len(), Link::end()).unwrap();
    fill_cells(
        &mut cells[kept..],
        &mut links[before..],
        heads,
        before,
        scope,
        own,
    );
}
