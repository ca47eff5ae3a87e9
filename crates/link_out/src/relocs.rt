//! The relocation words of a linked file, from the cells of the merged image.
ghost use Rattle.std.specs.Prelude.{◌≡◌, ◌≤◌, map, slice_get, IfOk, true, false};
ghost use Rattle.link_out.specs.function.Tables.{name_bits, segment_bits, number_too_large};
ghost use Rattle.link_out.specs.internal.FromCells.{bound_of, target_too_large, any_too_large, kept_relocs, reloc_of_cell, target_bits};
ghost use Rattle.link_out.specs.{internal.Passes.IsPassed, internal.Planned.{plan_in, objects_in, AreRelocs}};
ghost use Rattle.link_out.specs.internal.FromCells as from_cells;

use crate::finals::Final;
use crate::plan::Plan;
use aout_core::{Reloc, Segment};
use link_session::{Cell, Target};
use std::alloc::{AllocError, Global};
use tool_options::Options;

/// The largest number of a symbol that a relocation word can hold. (a.out(5))
pub const MOST_NUMBER: u32 = 4095;

/// The segment that an external name is bound to, if it is bound.
fn bound_of(finals: &[Final], index: u16) -> Option<Segment>
    ensures { result ≡ bound_of (slice_get finals.now index) }
{
    match finals.get(index as usize) {
        Some(last) => last.bound,
        None => None,
    }
}

/// Whether a name is not bound, and its number in the table too large for a relocation word.
pub(crate) fn number_too_large(bound: Option<Segment>, row: u32) -> bool
    ensures { result ≡ number_too_large bound row }
{
    match bound {
        Some(_) => false,
        None => MOST_NUMBER < row,
    }
}

/// The bits of a segment in a relocation word.
fn segment_bits(segment: Segment) -> u16
    ensures value { result ≡ segment_bits segment }
    ensures small { result ≤ 65528 }
{
    match segment {
        Segment::TextSeg => 0o2,
        Segment::DataSeg => 0o4,
        Segment::BssSeg => 0o6,
        Segment::Undefined | Segment::Absolute | Segment::Other => 0,
    }
}

/// The bits of a name in a relocation word: those of its segment, or 010 and its number in the table.
fn name_bits(bound: Option<Segment>, row: u32) -> u16
    requires { number_too_large bound row ≡ false }
    ensures value { result ≡ name_bits bound row }
    ensures small { result ≤ 65528 }
{
    match bound {
        Some(segment) => segment_bits(segment),
        None => (0o10 + 16 * row) as u16,
    }
}

/// The bits of what a cell refers to; `locals` rows come before the externals.
fn target_bits(finals: &[Final], locals: u16, target: Target) -> u16
    requires { target_too_large finals.now locals target ≡ false }
    ensures value { result ≡ target_bits finals.now locals target }
    ensures small { result ≤ 65528 }
{
    match target {
        Target::Absolute => 0,
        Target::TextSeg => 0o2,
        Target::DataSeg => 0o4,
        Target::BssSeg => 0o6,
        Target::External(index) => {
            name_bits(bound_of(finals, index), locals as u32 + index as u32)
        }
    }
}

/// The relocation word of a cell; `locals` rows come before the externals.
fn reloc_of_cell(finals: &[Final], locals: u16, cell: Cell) -> Reloc
    requires { target_too_large finals.now locals cell.target ≡ false }
    ensures { result ≡ reloc_of_cell finals.now locals cell }
{
    let pc = if cell.pc { 1 } else { 0 };
    Reloc(pc + target_bits(finals, locals, cell.target))
}

/// The relocation words of the cells of a segment, none of which waits for a name whose number is too large; `locals`
/// rows come before the externals. An error: out of memory.
fn relocs_of_cells(
    alloc: Global,
    cells: &[Cell],
    finals: &[Final],
    locals: u16,
) -> Result<Vec<Reloc>, AllocError>
    requires { any_too_large finals.now locals cells.now ≡ false }
    ensures { IfOk result (λ relocs.
        relocs.items ≡ map (reloc_of_cell finals.now locals) cells.now) }
{
    let mut relocs = Vec::with_capacity(alloc, cells.len())?;
    for cell in cells {
        relocs.push(reloc_of_cell(finals, locals, *cell))?;
    }
    Ok(relocs)
}

/// The relocation words of the cells if relocation is kept, and else none. An error: out of memory.
fn kept_relocs(
    alloc: Global,
    options: &Options,
    cells: &[Cell],
    finals: &[Final],
    locals: u16,
) -> Result<Vec<Reloc>, AllocError>
    requires { options.now.relocatable ≡ true → any_too_large finals.now locals cells.now ≡ false }
    ensures { IfOk result (λ relocs.
        relocs.items ≡ kept_relocs options.now finals.now locals cells.now) }
{
    if options.is_relocatable() {
        relocs_of_cells(alloc, cells, finals, locals)
    } else {
        Ok(Vec::new(alloc))
    }
}

/// The relocation words of a linked file.
#[derive(Drop)]
pub(crate) struct Relocs {
    pub(crate) text_reloc: Vec<Reloc>,
    pub(crate) data_reloc: Vec<Reloc>,
}

/// The relocation words of text and data, none unless relocation is kept; `locals` rows come before the externals.
/// An error: out of memory.
pub(crate) fn relocs_of(
    alloc: Global,
    plan: &Plan<'_>,
    finals: &[Final],
    locals: u16,
) -> Result<Relocs, AllocError>
    requires passed { IsPassed (plan_in plan.now) (objects_in plan.now) locals }
    requires finals { finals.now ≡ from_cells.finals (plan_in plan.now) }
    ensures { IfOk result (AreRelocs plan.now) }
{
    let text = plan.session.text_cells();
    let data = plan.session.data_cells();
    Ok(Relocs {
        text_reloc: kept_relocs(alloc, plan.options, text, finals, locals)?,
        data_reloc: kept_relocs(alloc, plan.options, data, finals, locals)?,
    })
}
