//! What becomes of the external names.
ghost use Rattle.std.specs.Prelude.{◌≡◌, ◌≤◌, ◌+◌, ◌*◌, ◌%◌, IfOk};
ghost use Rattle.link_session.specs.Undo.{image_of};
ghost use Rattle.link_out.specs.{function.Finals.{bound_at, final_at, waiting}, internal.FromCells.finals, internal.InOrder.finals_from};
ghost use Rattle.link_out.specs.internal.Planned.{plan_in, AreShort};

use crate::layout::{Bases, common_size};
use crate::plan::Plan;
use crate::reserved_names::reserved_or_waiting;
use crate::words::base_word;
use aout_core::{Name, Segment};
use link_session::{Session, State};
use std::alloc::{AllocError, Global};
use std::marker::Model;
use tool_options::Options;

/// What becomes of a name: the segment that it is bound to, if it is bound, its address, and the value that is written.
#[derive(Clone, Copy)]
pub(crate) struct Final {
    pub(crate) bound: Option<Segment>,
    pub(crate) address: u16,
    pub(crate) written: u16,
}

impl Model for Final {
    ghost use Rattle.link_out.specs.function.Finals as spec;

    ghost Value = { spec.Final };

    ghost view = { λ a. record { bound = a.bound; address = a.address; written = a.written } };

    ghost inverse = { λ v. record { bound = v.bound; address = v.address; written = v.written } };
}

/// A name that is bound.
pub(crate) fn bound_at(segment: Segment, address: u16) -> Final
    ensures { result ≡ bound_at segment address }
{
    Final {
        bound: Some(segment),
        address,
        written: address,
    }
}

/// A name that is not bound, and its size.
pub(crate) fn waiting(size: u16) -> Final
    ensures { result ≡ waiting size }
{
    Final {
        bound: None,
        address: 0,
        written: size,
    }
}

/// Where a common lies with so many bytes of commons before it.
fn common_at(bases: &Bases, offset: u64) -> u16
    requires datas { bases.now.data_end ≤ 65535 }
    requires offset { offset ≤ 65535 * 65536 }
    ensures { result ≡ (bases.now.data_end + offset) % 65536 }
{
    ((bases.data_end + offset) % 65_536) as u16
}

/// What becomes of a name in this state, with so many bytes of commons before it.
pub(crate) fn final_at(
    options: &Options,
    bases: &Bases,
    offset: u64,
    name: Name,
    state: State,
) -> Final
    requires short { AreShort bases.now }
    requires offset { offset ≤ 65535 * 65536 }
    ensures { result ≡ final_at options.now bases.now offset name state }
{
    match state {
        State::Defined(segment, place) => {
            bound_at(segment, base_word(bases, segment).wrapping_add(place))
        }
        State::Wanted(0) if options.is_relocatable() => waiting(0),
        State::Wanted(0) => reserved_or_waiting(bases, name),
        State::Wanted(_) if options.lays_commons() => {
            bound_at(Segment::BssSeg, common_at(bases, offset))
        }
        State::Wanted(size) => waiting(size),
    }
}

/// What becomes of a session's externals, by first mention. An error: out of memory.
fn finals_in(
    alloc: Global,
    session: &Session,
    options: &Options,
    bases: &Bases,
) -> Result<Vec<Final>, AllocError>
    requires { AreShort bases.now }
    ensures { IfOk result (λ names.
        names.items ≡ finals_from options.now bases.now 0 (image_of session.now).externals) }
{
    let mut finals = Vec::with_capacity(alloc, session.external_count() as usize)?;
    let mut offset = 0;
    for (name, state) in session.externals() {
        finals.push_reserved(final_at(options, bases, offset, name, state));
        offset += common_size(state);
    }
    Ok(finals)
}

/// What becomes of the externals of a link. An error: out of memory.
pub(crate) fn finals_of(alloc: Global, plan: &Plan<'_>) -> Result<Vec<Final>, AllocError>
    requires { plan.now.bases.bss_end ≤ 65535 }
    ensures { IfOk result (λ names. names.items ≡ finals (plan_in plan.now)) }
{
    finals_in(alloc, plan.session, plan.options, &plan.bases)
}
