//! An object joined to the merged image.
ghost use Rattle.std.specs.Prelude.{◌≡◌, ◌+◌, ◌*◌, ◌≤◌, ◌<◌, [], None, filter, length, vec_len, vec_capacity, OnOk, OnErr, IfOk};
ghost use Rattle.indexmap.specs.IndexMap.{spare};
ghost use Rattle.aout_core.specs.{Contents.Fits, WellFormed.{is_external, IsWellFormed}};
ghost use Rattle.aout_core.specs.declared.symbol.Segment.TheVariants as segments;
ghost use Rattle.link_session.specs.internal.Fields.{image_in, threads_in, with_own_cells, with_own_threads, IsSmall};
ghost use Rattle.link_session.specs.{internal.Restores.TakesBack, internal.Settled.IsCovered, internal.Threads.{next_threads, IsThreaded}};
ghost use Rattle.link_session.specs.internal.Additions.{all_places, joined_image, next_limit};

use crate::bind::bind_waiting;
use crate::cell::Cell;
use crate::chain::{Link, grow_heads};
use crate::entry::Entry;
use crate::mark::Mark;
use crate::mention::{Table, enter_all};
use crate::merged::{Externals, Merged};
use crate::relocate::{Scope, Shifts, Words, append_cells, next_shifts};
use crate::session::UndoRecord;
use crate::undo::undo;
use aout_core::{File, Name, Object, Segment};
use std::alloc::{AllocError, Global};
use std::mem::replace;

/// The words of an object's text.
fn text_of(file: &File) -> Words<'_>
    ensures segment { result.segment ≡ segments.TextSeg }
    ensures words { result.words.now ≡ file.now.text_words }
    ensures short { length result.words.now ≤ 32767 }
    ensures relocs { result.relocs.now ≡ file.now.text_reloc }
{
    Words {
        segment: Segment::TextSeg,
        words: file.text_words(),
        relocs: file.text_reloc(),
    }
}

/// The words of an object's data.
fn data_of(file: &File) -> Words<'_>
    ensures segment { result.segment ≡ segments.DataSeg }
    ensures words { result.words.now ≡ file.now.data_words }
    ensures short { length result.words.now ≤ 32767 }
    ensures relocs { result.relocs.now ≡ file.now.data_reloc }
{
    Words {
        segment: Segment::DataSeg,
        words: file.data_words(),
        relocs: file.data_reloc(),
    }
}

/// Requests memory for so many cells, each with its link. An error changes nothing but capacity.
fn reserve_cells(
    cells: &mut Vec<Cell>,
    links: &mut Vec<Link>,
    count: usize,
) -> Result<(), AllocError>
    ensures cells { cells.new.items ≡ cells.old.items }
    ensures links { links.new.items ≡ links.old.items }
    ensures cells_space { OnOk result (vec_len cells.new + count ≤ vec_capacity cells.new) }
    ensures links_space { OnOk result (vec_len links.new + count ≤ vec_capacity links.new) }
{
    cells.reserve(count)?;
    links.reserve(count)
}

/// Requests memory for so many names, with what is noted of them. An error changes nothing but capacity.
fn reserve_names(
    externals: &mut Externals,
    heads: &mut Vec<Link>,
    multiples: &mut Vec<Name>,
    marks: &mut Vec<Mark>,
    count: usize,
) -> Result<(), AllocError>
    ensures names { externals.new.entries ≡ externals.old.entries }
    ensures heads { heads.new.items ≡ heads.old.items }
    ensures multiples { multiples.new.items ≡ multiples.old.items }
    ensures marks { marks.new.items ≡ marks.old.items }
    ensures names_space { OnOk result (count ≤ spare externals.new) }
    ensures heads_space { OnOk result (vec_len heads.new + count ≤ vec_capacity heads.new) }
    ensures multiples_space { OnOk result
        (vec_len multiples.new + count ≤ vec_capacity multiples.new) }
    ensures marks_space { OnOk result (vec_len marks.new + count ≤ vec_capacity marks.new) }
{
    heads.reserve(count)?;
    externals.reserve(count)?;
    multiples.reserve(count)?;
    marks.reserve(count)
}

/// Requests memory for an object. An error changes nothing but capacity.
#[tactic(auto, using(crate::proofs::PlaceLemmas::filter_le))]
fn reserve_all(
    image: &mut Merged,
    marks: &mut Vec<Mark>,
    places: &mut Vec<u16>,
    file: &File,
) -> Result<(), AllocError>
    ensures image { image_in image.new ≡ image_in image.old }
    ensures threads { threads_in image.new ≡ threads_in image.old }
    ensures marks { marks.new.items ≡ marks.old.items }
    ensures text { OnOk result (vec_len image.new.text_cells + length file.now.text_words
        ≤ vec_capacity image.new.text_cells) }
    ensures datas { OnOk result (vec_len image.new.data_cells + length file.now.data_words
        ≤ vec_capacity image.new.data_cells) }
    ensures text_links { OnOk result (vec_len image.new.text_links + length file.now.text_words
        ≤ vec_capacity image.new.text_links) }
    ensures data_links { OnOk result (vec_len image.new.data_links + length file.now.data_words
        ≤ vec_capacity image.new.data_links) }
    ensures heads { OnOk result (vec_len image.new.heads
        + length (filter is_external file.now.symbols) ≤ vec_capacity image.new.heads) }
    ensures names { OnOk result
        (length (filter is_external file.now.symbols) ≤ spare image.new.externals) }
    ensures multiples { OnOk result (vec_len image.new.multiples
        + length (filter is_external file.now.symbols) ≤ vec_capacity image.new.multiples) }
    ensures states { OnOk result (vec_len marks.new + length (filter is_external file.now.symbols)
        ≤ vec_capacity marks.new) }
    ensures places { places.new.items ≡ places.old.items }
    ensures places_space { OnOk result
        (vec_len places.new + length file.now.symbols ≤ vec_capacity places.new) }
{
    let names = file.symbols().len();
    let text = file.text_words().len();
    let data = file.data_words().len();
    reserve_cells(&mut image.text_cells, &mut image.text_links, text)?;
    reserve_cells(&mut image.data_cells, &mut image.data_links, data)?;
    reserve_names(
        &mut image.externals,
        &mut image.heads,
        &mut image.multiples,
        marks,
        names,
    )?;
    places.reserve(names)
}

/// Appends heads for the object's new names, and then its own cells and its bss. There is space for them.
fn append_object(image: &mut Merged, file: &File, shifts: &Shifts, places: &[u16])
    requires bss { image.old.bss_total + file.now.header.bss_size ≤ 65534 }
    requires well { IsWellFormed file.now }
    requires places { places.now ≡ all_places image.old.externals.entries file.now.symbols }
    requires text_small { length image.old.text_links.items ≤ 32767 }
    requires data_small { length image.old.data_links.items ≤ 32767 }
    requires text_space { vec_len image.old.text_cells + length file.now.text_words
        ≤ vec_capacity image.old.text_cells }
    requires data_space { vec_len image.old.data_cells + length file.now.data_words
        ≤ vec_capacity image.old.data_cells }
    requires text_links_space { vec_len image.old.text_links + length file.now.text_words
        ≤ vec_capacity image.old.text_links }
    requires data_links_space { vec_len image.old.data_links + length file.now.data_words
        ≤ vec_capacity image.old.data_links }
    requires heads_space { length image.old.externals.entries ≤ vec_capacity image.old.heads }
    ensures image { image_in image.new ≡ with_own_cells (image_in image.old) file.now shifts.now }
    ensures threads { threads_in image.new
        ≡ with_own_threads (image_in image.old) file.now shifts.now (threads_in image.old) }
{
    let bss_size = file.header().bss_size;
    let names = image.externals.len();
    grow_heads(&mut image.heads, names);
    let scope = Scope {
        externals: &image.externals,
        places,
        shifts: *shifts,
    };
    append_cells(
        &mut image.text_cells,
        &mut image.text_links,
        &mut image.heads,
        &scope,
        &text_of(file),
    );
    append_cells(
        &mut image.data_cells,
        &mut image.data_links,
        &mut image.heads,
        &scope,
        &data_of(file),
    );
    image.bss_total += bss_size;
}

/// Requests memory for an object and its marks, and joins the object to the image: the marks hold what it overwrote. An error
/// changes nothing but capacity. Both lists are empty at first; the second is filled with the places of the object's symbols.
fn take_in_with(
    entries: &mut Vec<Entry>,
    undo_records: &mut Vec<UndoRecord>,
    image: &mut Merged,
    object: &Object,
    mut marks: Vec<Mark>,
    mut places: Vec<u16>,
) -> Result<(Vec<Mark>, Vec<u16>), AllocError>
    requires no_marks { marks.items ≡ [] }
    requires no_places { places.items ≡ [] }
    requires small { IsSmall (image_in image.old) }
    requires threaded { IsThreaded (image_in image.old) (threads_in image.old) }
    requires covered { IsCovered (image_in image.old) object.now }
    requires fits { next_limit (image_in image.old) object.now ≡ None }
    ensures entries { entries.new.items ≡ entries.old.items }
    ensures undo_records { undo_records.new.items ≡ undo_records.old.items }
    ensures entries_space { OnOk result (vec_len entries.new < vec_capacity entries.new) }
    ensures undo_records_space { OnOk result
        (vec_len undo_records.new < vec_capacity undo_records.new) }
    ensures image { OnOk result
        (image_in image.new ≡ joined_image (image_in image.old) object.now) }
    ensures threads { OnOk result (threads_in image.new
        ≡ next_threads (image_in image.old) object.now (threads_in image.old)) }
    ensures marks { IfOk result (λ lists.
        TakesBack (image_in image.old) object.now (threads_in image.old).heads lists.0.items) }
    ensures err { OnErr result ((image_in image.new ≡ image_in image.old)
        × (threads_in image.new ≡ threads_in image.old)) }
{
    entries.reserve(1)?;
    undo_records.reserve(1)?;
    let file = object.file();
    let sizes = image.sizes();
    let shifts = next_shifts(image, object);
    reserve_all(image, &mut marks, &mut places, file)?;
    let table = Table {
        symbols: file.symbols(),
        shifts,
    };
    enter_all(
        &mut image.externals,
        &mut image.multiples,
        &mut marks,
        &mut places,
        &table,
    );
    if let Err(refused) = bind_waiting(image, &mut marks, &places) {
        undo(image, &marks, &sizes);
        return Err(refused);
    }
    append_object(image, file, &shifts, &places);
    Ok((marks, places))
}

/// These marks in a list that takes no more memory than they need. An error: out of memory.
fn copy_of(alloc: Global, marks: &[Mark]) -> Result<Vec<Mark>, AllocError>
    ensures { IfOk result (λ kept. kept.items ≡ marks.now) }
{
    let mut kept = Vec::with_capacity(alloc, marks.len())?;
    kept.extend_from_slice(marks)?;
    Ok(kept)
}

/// Requests memory for an object and its marks, and joins the object to the image: the marks hold what it overwrote. An error
/// changes nothing but capacity.
pub(crate) fn take_in(
    entries: &mut Vec<Entry>,
    undo_records: &mut Vec<UndoRecord>,
    image: &mut Merged,
    object: &Object,
    alloc: Global,
) -> Result<Vec<Mark>, AllocError>
    requires small { IsSmall (image_in image.old) }
    requires threaded { IsThreaded (image_in image.old) (threads_in image.old) }
    requires covered { IsCovered (image_in image.old) object.now }
    requires fits { next_limit (image_in image.old) object.now ≡ None }
    ensures entries { entries.new.items ≡ entries.old.items }
    ensures undo_records { undo_records.new.items ≡ undo_records.old.items }
    ensures entries_space { OnOk result (vec_len entries.new < vec_capacity entries.new) }
    ensures undo_records_space { OnOk result
        (vec_len undo_records.new < vec_capacity undo_records.new) }
    ensures image { OnOk result
        (image_in image.new ≡ joined_image (image_in image.old) object.now) }
    ensures threads { OnOk result (threads_in image.new
        ≡ next_threads (image_in image.old) object.now (threads_in image.old)) }
    ensures marks { IfOk result (λ marks.
        TakesBack (image_in image.old) object.now (threads_in image.old).heads marks.items) }
    ensures err { OnErr result ((image_in image.new ≡ image_in image.old)
        × (threads_in image.new ≡ threads_in image.old)) }
{
    let mut marks = replace(&mut image.noted, Vec::new(alloc));
    marks.clear();
    let mut places = replace(&mut image.places, Vec::new(alloc));
    places.clear();
    let (marks, places) = take_in_with(entries, undo_records, image, object, marks, places)?;
    image.places = places;
    match copy_of(alloc, &marks) {
        Ok(kept) => {
            image.noted = marks;
            Ok(kept)
        }
        // then the list itself is kept
        Err(_) => Ok(marks),
    }
}
