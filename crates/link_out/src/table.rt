//! The symbol table of a linked file.
ghost use Rattle.std.specs.Prelude.{◌≡◌, ◌+◌, ◌≤◌, ◌++◌, length, vec_len, vec_capacity, IfOk};
ghost use Rattle.link_session.specs.{Labelled.objects, Starts.no_starts, Undo.image_of};
ghost use Rattle.link_out.specs.function.Finals.{type_of};
ghost use Rattle.link_out.specs.internal.Planned.{plan_in, table_in, locals_in};
ghost use Rattle.link_out.specs.internal.Rows.{moves_by, value_moved, symbol_moved, rows_in, rows_from, row_with, rows_with, count_in, kept_count};
ghost use Rattle.link_out.specs.internal.FromCells as from_cells;

use crate::finals::Final;
use crate::kept_symbols::is_kept_local;
use crate::layout::Bases;
use crate::plan::Plan;
use crate::words::base_word;
use aout_core::{Name, Segment, Symbol};
use link_session::{Entry, Session, Shifts, Starts};
use std::alloc::{AllocError, Global};
use tool_options::Keep;

/// How far the segments of an object move, modulo 65,536.
#[derive(Clone, Copy)]
pub(crate) struct Moves {
    text: u16,
    data: u16,
    bss: u16,
}

impl Moves {
    /// How far the segments of an object with these shifts move.
    fn by(bases: &Bases, shifts: &Shifts) -> Moves
        ensures { result ≡ moves_by bases.now shifts.now }
    {
        Moves {
            text: base_word(bases, Segment::TextSeg).wrapping_add(shifts.of(Segment::TextSeg)),
            data: base_word(bases, Segment::DataSeg).wrapping_add(shifts.of(Segment::DataSeg)),
            bss: base_word(bases, Segment::BssSeg).wrapping_add(shifts.of(Segment::BssSeg)),
        }
    }

    /// The value of a local of this segment.
    fn value(&self, segment: Segment, value: u16) -> u16
        ensures { result ≡ value_moved self.now segment value }
    {
        match segment {
            Segment::TextSeg => value.wrapping_add(self.text),
            Segment::DataSeg => value.wrapping_add(self.data),
            Segment::BssSeg => value.wrapping_add(self.bss),
            Segment::Undefined | Segment::Absolute | Segment::Other => value,
        }
    }

    /// A local, moved with its segment.
    fn symbol(&self, symbol: &Symbol) -> Symbol
        ensures { result ≡ symbol_moved self.now symbol.now }
    {
        Symbol {
            name: symbol.name,
            type_bits: symbol.type_bits,
            value: self.value(symbol.segment(), symbol.value),
        }
    }
}

/// Appends the kept locals of an object. There is space for them.
fn put_locals_of(rows: &mut Vec<Symbol>, keep: Keep, moves: &Moves, symbols: &[Symbol])
    requires { vec_len rows.old + count_in keep symbols.now ≤ vec_capacity rows.old }
    ensures rows { rows.new.items ≡ rows.old.items ++ rows_in keep moves.now symbols.now }
    ensures len { vec_len rows.new ≡ vec_len rows.old + count_in keep symbols.now }
    ensures capacity { vec_capacity rows.new ≡ vec_capacity rows.old }
{
    for symbol in symbols {
        if is_kept_local(keep, symbol) {
            rows.push_reserved(moves.symbol(symbol));
        }
    }
}

/// The kept locals of all objects, in order, moved with their segments, with space for `room` rows in all. An error: out of
/// memory.
fn kept_locals(
    alloc: Global,
    entries: &[Entry],
    keep: Keep,
    bases: &Bases,
    room: usize,
) -> Result<Vec<Symbol>, AllocError>
    requires { kept_count keep (objects entries.now) ≤ room }
    ensures rows { IfOk result (λ rows.
        rows.items ≡ rows_from bases.now keep no_starts (objects entries.now)) }
    ensures len { IfOk result (λ rows. vec_len rows ≡ kept_count keep (objects entries.now)) }
    ensures space { IfOk result (λ rows. room ≤ vec_capacity rows) }
{
    let mut rows = Vec::with_capacity(alloc, room)?;
    let mut starts = Starts::first();
    for entry in entries {
        let file = entry.object().file();
        let moves = Moves::by(bases, &starts.shifts(file.header()));
        put_locals_of(&mut rows, keep, &moves, file.symbols());
        starts = starts.after(file.header());
    }
    Ok(rows)
}

/// The type word of an external that is bound to this segment, if it is bound.
fn type_of(bound: Option<Segment>) -> u16
    ensures { result ≡ type_of bound }
{
    match bound {
        None => 0o40,
        Some(segment) => 0o40 + segment.number(),
    }
}

/// The row of an external.
fn row_for(name: Name, last: &Final) -> Symbol
    ensures { result ≡ row_with name last.now }
{
    Symbol {
        name,
        type_bits: type_of(last.bound),
        value: last.written,
    }
}

/// Appends the rows of the externals, by first mention. There is space for them.
pub(crate) fn put_externals(rows: &mut Vec<Symbol>, session: &Session, finals: &[Final])
    requires { vec_len rows.old + length (image_of session.now).externals ≤ vec_capacity rows.old }
    ensures { rows.new.items
        ≡ rows.old.items ++ rows_with (image_of session.now).externals finals.now }
{
    for ((name, _), last) in session.externals().zip(finals) {
        rows.push_reserved(row_for(name, last));
    }
}

/// The symbol table: the kept locals, so many, object by object, and then the externals, of which `finals` says what becomes.
/// An error: out of memory.
pub(crate) fn table(
    alloc: Global,
    plan: &Plan<'_>,
    finals: &[Final],
    locals: u16,
) -> Result<Vec<Symbol>, AllocError>
    requires finals { finals.now ≡ from_cells.finals (plan_in plan.now) }
    requires locals { locals ≡ length (locals_in plan.now) }
    ensures { IfOk result (λ rows. rows.items ≡ table_in plan.now) }
{
    if plan.keep == Keep::Nothing {
        return Ok(Vec::new(alloc));
    }
    let room = locals as usize + plan.session.external_count() as usize;
    let mut rows = kept_locals(alloc, plan.entries, plan.keep, &plan.bases, room)?;
    put_externals(&mut rows, plan.session, finals);
    Ok(rows)
}
