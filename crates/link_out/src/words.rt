//! The words of a linked file, from the cells of the merged image.
ghost use Rattle.std.specs.Prelude.{◌≡◌, ◌%◌, length, map, slice_get, IfOk};
ghost use Rattle.link_out.specs.{Layouts.base, internal.FromCells.{address_of, target_base, word_of_cell}};
ghost use Rattle.link_out.specs.internal.Planned.{plan_in, AreWords};
ghost use Rattle.link_out.specs.internal.FromCells as from_cells;

use crate::finals::Final;
use crate::layout::Bases;
use crate::plan::Plan;
use aout_core::Segment;
use link_session::{Cell, Target};
use std::alloc::{AllocError, Global};

/// Where a segment starts, modulo 65,536.
pub(crate) fn base_word(bases: &Bases, segment: Segment) -> u16
    ensures { result ≡ base bases.now segment % 65536 }
{
    match segment {
        Segment::DataSeg => (bases.data_start % 65_536) as u16,
        Segment::BssSeg => (bases.bss_start % 65_536) as u16,
        Segment::Undefined | Segment::Absolute | Segment::TextSeg | Segment::Other => 0,
    }
}

/// The address of an external name.
fn address(finals: &[Final], index: u16) -> u16
    ensures { result ≡ address_of (slice_get finals.now index) }
{
    match finals.get(index as usize) {
        Some(last) => last.address,
        None => 0,
    }
}

/// What the value of a cell counts from, modulo 65,536.
fn target_word(bases: &Bases, finals: &[Final], target: Target) -> u16
    ensures { result ≡ target_base bases.now finals.now target % 65536 }
{
    match target {
        Target::Absolute => 0,
        Target::TextSeg => base_word(bases, Segment::TextSeg),
        Target::DataSeg => base_word(bases, Segment::DataSeg),
        Target::BssSeg => base_word(bases, Segment::BssSeg),
        Target::External(index) => address(finals, index),
    }
}

fn word_of_cell(bases: &Bases, finals: &[Final], segment: Segment, cell: Cell) -> u16
    ensures { result ≡ word_of_cell bases.now finals.now segment cell }
{
    let start = if cell.pc {
        base_word(bases, segment)
    } else {
        0
    };
    cell.value
        .wrapping_add(target_word(bases, finals, cell.target))
        .wrapping_sub(start)
}

fn fill_words(words: &mut [u16], cells: &[Cell], segment: Segment, bases: &Bases, finals: &[Final])
    requires { length words.old ≡ length cells.now }
    ensures { words.new ≡ map (word_of_cell bases.now finals.now segment) cells.now }
{
    for (n, cell) in cells.iter().enumerate() {
        words[n] = word_of_cell(bases, finals, segment, *cell);
    }
}

/// The words of the cells of a segment, text or data. An error: out of memory.
fn words_of_cells(
    alloc: Global,
    cells: &[Cell],
    segment: Segment,
    bases: &Bases,
    finals: &[Final],
) -> Result<Vec<u16>, AllocError>
    ensures { IfOk result (λ words.
        words.items ≡ map (word_of_cell bases.now finals.now segment) cells.now) }
{
    let mut words = vec![in alloc; 0u16; cells.len()]?;
    fill_words(&mut words, cells, segment, bases, finals);
    Ok(words)
}

/// The words of a linked file.
#[derive(Drop)]
pub(crate) struct Words {
    pub(crate) text_words: Vec<u16>,
    pub(crate) data_words: Vec<u16>,
}

/// The words of text and data. An error: out of memory.
pub(crate) fn words_of(
    alloc: Global,
    plan: &Plan<'_>,
    finals: &[Final],
) -> Result<Words, AllocError>
    requires { finals.now ≡ from_cells.finals (plan_in plan.now) }
    ensures { IfOk result (AreWords plan.now) }
{
    let text = plan.session.text_cells();
    let data = plan.session.data_cells();
    Ok(Words {
        text_words: words_of_cells(alloc, text, Segment::TextSeg, &plan.bases, finals)?,
        data_words: words_of_cells(alloc, data, Segment::DataSeg, &plan.bases, finals)?,
    })
}
