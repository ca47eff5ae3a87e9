//! The names `_etext`, `_edata` and `_end`: what becomes of them, and which undefined names are others.
ghost use Rattle.std.specs.Prelude.{◌≡◌, ◌++◌, ◌∷◌, [], bytes_eq, IfOk, OnOk};
ghost use Rattle.link_session.specs.{Image.state_at, States.state, Undo.image_of};
ghost use Rattle.tool_options.specs.NameLists.{is_among};
ghost use Rattle.link_out.specs.{ReservedNames.reserved_names, function.Finals.reserved_or_waiting};
ghost use Rattle.link_out.specs.{function.Reports.{is_undefined, is_missing, reserved_taken}, internal.InOrder.mentions_of};
ghost use Rattle.link_out.specs.{internal.Planned.AreShort, internal.ReportParts.taken_among};

use crate::finals::{Final, bound_at, waiting};
use crate::layout::Bases;
use aout_core::{Name, Segment};
use link_session::{Session, State};
use std::alloc::{AllocError, Global};

/// Whether a name has these bytes.
fn is_named(name: &Name, text: &[u8]) -> bool
    ensures { result ≡ bytes_eq name.now text.now }
{
    name.as_bytes() == text
}

/// What becomes of a name that nothing defines and that is not a common.
pub(crate) fn reserved_or_waiting(bases: &Bases, name: Name) -> Final
    requires { AreShort bases.now }
    ensures { result ≡ reserved_or_waiting bases.now name }
{
    if is_named(&name, b"_etext") {
        bound_at(Segment::TextSeg, bases.text_end as u16)
    } else if is_named(&name, b"_edata") {
        bound_at(Segment::DataSeg, bases.data_end as u16)
    } else if is_named(&name, b"_end") {
        bound_at(Segment::BssSeg, bases.bss_end as u16)
    } else {
        waiting(0)
    }
}

/// Whether a name is neither defined nor a common.
fn is_undefined(state: State) -> bool
    ensures { result ≡ is_undefined state }
{
    match state {
        State::Defined(_, _) => false,
        State::Wanted(size) => size == 0,
    }
}

/// What is known of the external with this index.
fn known_at(session: &Session, index: u16) -> State
    ensures { result ≡ state_at (image_of session.now).externals index }
{
    match session.external(index) {
        Some((_, state)) => state,
        None => State::Wanted(0),
    }
}

/// What is known of a name; one that nothing mentions is wanted at size 0.
fn state_of(session: &Session, name: &Name) -> State
    ensures { result ≡ state (mentions_of session.now) name.now }
{
    match session.find(name) {
        Some(index) => known_at(session, index),
        None => State::Wanted(0),
    }
}

/// Appends a name if it is defined, or a common.
fn put_if_taken(names: &mut Vec<Name>, session: &Session, name: Name) -> Result<(), AllocError>
    ensures { OnOk result
        (names.new.items ≡ names.old.items ++ taken_among (mentions_of session.now) (name ∷ [])) }
{
    if !is_undefined(state_of(session, &name)) {
        names.push(name)?;
    }
    Ok(())
}

/// Those of the reserved names that the objects define, or make commons. An error: out of memory.
pub(crate) fn reserved_taken(alloc: Global, session: &Session) -> Result<Vec<Name>, AllocError>
    ensures { IfOk result (λ names. names.items ≡ reserved_taken (mentions_of session.now)) }
{
    let mut names = Vec::new(alloc);
    put_if_taken(&mut names, session, Name::from_bytes(b"_etext"))?;
    put_if_taken(&mut names, session, Name::from_bytes(b"_edata"))?;
    put_if_taken(&mut names, session, Name::from_bytes(b"_end"))?;
    Ok(names)
}

fn is_reserved(name: &Name) -> bool
    ensures { result ≡ is_among reserved_names name.now }
{
    is_named(name, b"_etext") || (is_named(name, b"_edata") || is_named(name, b"_end"))
}

/// Whether a link without relocation reports a name in this state as undefined: nothing defines it, it is not a common, and
/// it is not `_etext`, `_edata` or `_end`, which the linker defines. (ld(1))
pub fn is_missing(name: &Name, state: State) -> bool
    ensures { result ≡ is_missing name.now state }
{
    is_undefined(state) && !is_reserved(name)
}
