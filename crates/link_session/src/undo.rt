//! How an addition is taken back.
ghost use Rattle.std.specs.Prelude.{◌≡◌, ◌*◌, ◌+◌, ◌-◌, ◌<◌, ◌≤◌, ◌∷◌, ◌++◌, [], length, slice_set};
ghost use Rattle.link_session.specs.Image.{Image};
ghost use Rattle.link_session.specs.internal.Fields.{image_in, threads_in, sizes_of, HasAtLeast, unthreaded_after, threads_by, with_heads_back};
ghost use Rattle.link_session.specs.Undo.{put_back, with_state, cut_to, undo};

use crate::cell::Cell;
use crate::chain::{Link, set_head, unthread};
use crate::mark::{Mark, Place};
use crate::merged::{Externals, Merged, Sizes};
use crate::state::State;

/// Takes the cells after these sizes out of their chains, the last first.
fn unthread_after(image: &mut Merged, sizes: &Sizes)
    requires within { HasAtLeast sizes.now (image_in image.old) (threads_in image.old) }
    ensures image { image_in image.new ≡ image_in image.old }
    ensures threads { threads_in image.new
        ≡ unthreaded_after sizes.now (image_in image.old) (threads_in image.old) }
{
    unthread(
        &image.data_cells[sizes.data_cells..],
        &image.data_links[sizes.data_cells..],
        &mut image.heads,
    );
    unthread(
        &image.text_cells[sizes.text_cells..],
        &image.text_links[sizes.text_cells..],
        &mut image.heads,
    );
}

/// Cuts the image to its earlier sizes. What is cut leaves its chains.
fn cut(image: &mut Merged, sizes: &Sizes)
    requires within { HasAtLeast sizes.now (image_in image.old) (threads_in image.old) }
    ensures image { (before : Image) → sizes.now ≡ sizes_of before
        → image_in image.new ≡ cut_to before (image_in image.old) }
    ensures threads { threads_in image.new
        ≡ threads_by sizes.now (image_in image.old) (threads_in image.old) }
{
    unthread_after(image, sizes);
    image.text_cells.truncate(sizes.text_cells);
    image.data_cells.truncate(sizes.data_cells);
    image.bss_total = sizes.bss_total;
    image.externals.truncate(sizes.externals);
    image.multiples.truncate(sizes.multiples);
    image.text_links.truncate(sizes.text_cells);
    image.data_links.truncate(sizes.data_cells);
    image.heads.truncate(sizes.externals);
}

/// Puts back what a mark remembers. A cell that waits again stands first on its chain.
fn put_back(image: &mut Merged, mark: Mark)
    ensures image { image_in image.new ≡ put_back mark (image_in image.old) }
    ensures threads { threads_in image.new ≡ with_heads_back (mark ∷ []) (threads_in image.old) }
{
    match mark {
        Mark::CellWas(place, cell) => {
            match place {
                Place::InText(index) => put_cell(&mut image.text_cells, index, cell),
                Place::InData(index) => put_cell(&mut image.data_cells, index, cell),
            }
            set_head(&mut image.heads, cell.target, Link::to(place));
        }
        Mark::StateWas(index, state) => put_state(&mut image.externals, index, state),
    }
}

fn put_cell(cells: &mut [Cell], index: u16, cell: Cell)
    ensures { cells.new ≡ slice_set cells.old index cell }
{
    let index = index as usize;
    if index < cells.len() {
        cells[index] = cell;
    }
}

fn put_state(externals: &mut Externals, index: u16, state: State)
    ensures { externals.new.entries ≡ with_state externals.old.entries index state }
{
    let index = index as usize;
    if index < externals.len() {
        externals[index] = state;
    }
}

/// Takes an addition back: the image is cut to its earlier sizes, and what the marks remember is put back, the last
/// mark first. It is handed no object, and takes no memory.
pub(crate) fn undo(image: &mut Merged, marks: &[Mark], sizes: &Sizes)
    requires within { HasAtLeast sizes.now (image_in image.old) (threads_in image.old) }
    ensures image { (before : Image) → sizes.now ≡ sizes_of before
        → image_in image.new ≡ undo marks.now (image_in image.old) before }
    ensures threads { threads_in image.new ≡ with_heads_back marks.now
        (threads_by sizes.now (image_in image.old) (threads_in image.old)) }
{
    cut(image, sizes);
    for i in 0..marks.len() {
        put_back(image, marks[marks.len() - 1 - i]);
    }
}
