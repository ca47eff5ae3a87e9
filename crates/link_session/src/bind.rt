//! The cells that wait for names, bound once the names are defined.
ghost use Rattle.std.specs.Prelude.{◌≡◌, ◌*◌, ◌∷◌, [], None, OnOk, OnErr};
ghost use Rattle.link_session.specs.internal.Fields.{HoldsChains, LeavesMarksIn, NotesBoundIn};
ghost use Rattle.link_session.specs.internal.Bindings.{BindsAt, BindsTo, IsChainIn, IsPlaceIn, IsSettled, KeepsRest};

use crate::cell::Cell;
use crate::chain::{Link, begin_chain, link_in};
use crate::mark::{Mark, Place};
use crate::mention::state_at;
use crate::merged::Merged;
use crate::relocate::segment_target;
use crate::state::State;
use aout_core::Segment;
use std::alloc::AllocError;

/// What a name is defined as: an offset in a merged segment.
#[derive(Clone, Copy)]
pub(crate) struct Definition {
    pub(crate) segment: Segment,
    pub(crate) offset: u16,
}

/// Marks the cell at a place, and binds it to a definition. An error changes nothing.
fn bind_cell(
    image: &mut Merged,
    marks: &mut Vec<Mark>,
    place: Place,
    definition: Definition,
) -> Result<(), AllocError>
    requires { IsPlaceIn image.old place }
    ensures ok { OnOk result
        (BindsAt definition place image.old image.new marks.old.items marks.new.items) }
    ensures err { OnErr result ((image.new ≡ image.old) × (marks.new.items ≡ marks.old.items)) }
{
    let cell = image.cell_at(place);
    marks.push(Mark::CellWas(place, cell))?;
    let bound = Cell {
        value: cell.value.wrapping_add(definition.offset),
        target: segment_target(definition.segment),
        pc: cell.pc,
    };
    match place {
        Place::InText(index) => image.text_cells[index as usize] = bound,
        Place::InData(index) => image.data_cells[index as usize] = bound,
    }
    Ok(())
}

/// Marks the cells of the chain that begins here, in its order, and binds them to a definition. The links stay as they are.
/// Answers the first place for whose mark there was no memory, with that error: it and those after it are left as they were.
fn bind_chain(
    image: &mut Merged,
    marks: &mut Vec<Mark>,
    head: Link,
    definition: Definition,
) -> (Link, Result<(), AllocError>)
    requires { IsChainIn image.old head }
    ensures binds { BindsTo definition head result.0
        image.old image.new marks.old.items marks.new.items }
    ensures all { OnOk result.1 (result.0 ≡ None) }
{
    let mut next = head;
    while let Some(place) = next.place() {
        if let Err(error) = bind_cell(image, marks, place, definition) {
            return (next, Err(error));
        }
        next = image.link_at(place);
    }
    (next, Ok(()))
}

/// Binds the cells that wait for the external at a place, if it is defined: marks them, binds them, and cuts their chain.
/// After an error the chain has the cells that are not bound, and the marks bring back those that are.
fn bind_external(image: &mut Merged, marks: &mut Vec<Mark>, place: u16) -> Result<(), AllocError>
    requires chained { HoldsChains image.old }
    ensures chained { HoldsChains image.new }
    ensures rest { KeepsRest image.old image.new }
    ensures bound { OnOk result (IsSettled (place ∷ []) image.old image.new) }
    ensures back { LeavesMarksIn image.old image.new marks.old.items marks.new.items }
    ensures few { OnOk result (NotesBoundIn image.old image.new marks.old.items marks.new.items) }
{
    let head = link_in(&image.heads, place);
    if head.place().is_none() {
        return Ok(());
    }
    let State::Defined(segment, offset) = state_at(&image.externals, place) else {
        return Ok(());
    };
    let (rest, bound) = bind_chain(image, marks, head, Definition { segment, offset });
    begin_chain(&mut image.heads, place, rest);
    bound?;
    Ok(())
}

/// Binds the cells that wait for the externals at these places, as far as they are defined, and marks them. After an
/// error the marks bring back what was bound.
pub(crate) fn bind_waiting(
    image: &mut Merged,
    marks: &mut Vec<Mark>,
    places: &[u16],
) -> Result<(), AllocError>
    requires chained { HoldsChains image.old }
    ensures chained { HoldsChains image.new }
    ensures rest { KeepsRest image.old image.new }
    ensures bound { OnOk result (IsSettled places.now image.old image.new) }
    ensures back { LeavesMarksIn image.old image.new marks.old.items marks.new.items }
    ensures few { OnOk result (NotesBoundIn image.old image.new marks.old.items marks.new.items) }
{
    for place in places {
        bind_external(image, marks, *place)?;
    }
    Ok(())
}

#[cfg(test)]
mod tests {
    use super::{Definition, bind_chain};
    use crate::cell::{Cell, Target};
    use crate::chain::Link;
    use crate::mark::Place;
    use crate::merged::Merged;
    use aout_core::Segment;
    use std::alloc::AllocError;

    #[test]
    fn bind_only_the_chain(rt: HostRuntime) -> Result<(), AllocError> {
        let waits = Cell {
            value: 0,
            target: Target::External(0),
            pc: false,
        };
        let other = Cell {
            value: 0,
            target: Target::External(1),
            pc: false,
        };
        let mut image = Merged::new(rt.alloc());
        image.text_cells = Vec::from_array(rt.alloc(), [waits, other, waits, other])?;
        image.text_links = Vec::from_array(
            rt.alloc(),
            [Link::end(), Link::end(), Link::end(), Link::end()],
        )?;
        let seven = Definition {
            segment: Segment::Absolute,
            offset: 7,
        };
        let mut marks = Vec::new(rt.alloc());
        let (rest, done) = bind_chain(&mut image, &mut marks, Link::to(Place::InText(2)), seven);
        done?;
        let bound = Cell {
            value: 7,
            target: Target::Absolute,
            pc: false,
        };
        assert!(rt; rest.place().is_none());
        assert!(rt; image.text_cells.as_slice() == [waits, other, bound, other].as_slice());
        Ok(())
    }
}
