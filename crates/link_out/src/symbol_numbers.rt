//! Whether relocation words can hold the numbers of the names that are waited for. This takes no memory.
ghost use Rattle.std.specs.{Prelude.{◌≡◌, true, length, slice_get}, List.list_any};
ghost use Rattle.link_session.specs.Undo.{image_of};
ghost use Rattle.link_out.specs.{function.Tables.has_number_too_large, internal.Planned.{plan_in, objects_in, locals_in}};
ghost use Rattle.link_out.specs.internal.SymbolNumbers.{kept_bound, kept_bound_of, is_too_large};

use crate::plan::Plan;
use crate::relocs::number_too_large;
use aout_core::Segment;
use link_session::{Cell, Session, State, Target};

/// The segment that a name in this state is bound to in a file with relocation, if it is bound; `commons` tells
/// whether commons are laid out.
fn kept_bound(commons: bool, state: State) -> Option<Segment>
    ensures { result ≡ kept_bound commons state }
{
    match state {
        State::Defined(segment, _) => Some(segment),
        State::Wanted(size) if size != 0 && commons => Some(Segment::BssSeg),
        State::Wanted(_) => None,
    }
}

/// The same of the external with this index.
fn kept_bound_of(session: &Session, commons: bool, index: u16) -> Option<Segment>
    ensures { result ≡ kept_bound_of commons (slice_get (image_of session.now).externals index) }
{
    match session.external(index) {
        Some((_, state)) => kept_bound(commons, state),
        None => None,
    }
}

/// Whether a word with this target would need a number over 4,095; `locals` rows come before the externals.
fn is_too_large(session: &Session, commons: bool, locals: u16, target: Target) -> bool
    ensures { result ≡ is_too_large (image_of session.now).externals commons locals target }
{
    match target {
        Target::External(index) => {
            let row = locals as u32 + index as u32;
            number_too_large(kept_bound_of(session, commons, index), row)
        }
        Target::Absolute | Target::TextSeg | Target::DataSeg | Target::BssSeg => false,
    }
}

/// Whether one of the cells would need a number over 4,095.
fn is_any_too_large(session: &Session, commons: bool, locals: u16, cells: &[Cell]) -> bool
    ensures { result ≡ list_any (λ (c : Cell).
        is_too_large (image_of session.now).externals commons locals c.target) cells.now }
{
    cells
        .iter()
        .any(|cell| is_too_large(session, commons, locals, cell.target))
}

/// Whether a file with relocation would need a symbol number over 4,095; `locals` rows come before the externals.
pub(crate) fn has_number_too_large(plan: &Plan<'_>, locals: u16) -> bool
    requires relocatable { plan.now.options.now.relocatable ≡ true }
    requires locals { locals ≡ length (locals_in plan.now) }
    ensures { result ≡ has_number_too_large (plan_in plan.now) (objects_in plan.now) }
{
    let session = plan.session;
    let commons = plan.options.lays_commons();
    let in_text = is_any_too_large(session, commons, locals, session.text_cells());
    let in_data = is_any_too_large(session, commons, locals, session.data_cells());
    in_text || in_data
}
