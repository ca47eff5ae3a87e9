//! A pointer that owns a session, or nothing.
ghost use Rattle.std.specs.{Prelude.{◌≡◌, Option, None, Some, IsSome}, contracts.impls.GlobalAllocator.TheImpl.ghosts};
ghost use Rattle.link_session.specs.{Undo.Kept, contracts.session.Session.the_row as R};
ghost use Rattle.libv7.specs.Slots.{slot_owns};

use crate::loose::Loose;
use link_session::Session;
use std::alloc::Global;
use std::marker::Model;
use std::ptr::null_mut;

/// A pointer that owns a session, or nothing.
#[repr(C)]
#[derive(Drop)]
pub struct Slot {
    at: *mut u8,
    alloc: Global,
    ghost value: { Option Kept },
}

impl Model for Slot {
    ghost also_owns = { λ s. slot_owns (ghosts.dealloc_token s.alloc) R s.at s.value };
}

impl Slot {
    /// Nothing.
    pub(crate) fn empty(alloc: Global) -> Slot
        ensures { result.value ≡ None }
    {
        Slot {
            at: null_mut(),
            alloc,
        }
    }

    /// What the pointer owns.
    pub(crate) fn of(loose: Loose<Session, Global>) -> Slot
        ensures { result.value ≡ Some loose.value }
    {
        let Loose { at, alloc } = loose;
        Slot {
            at: at as *mut u8,
            alloc,
        }
    }

    /// The pointer again.
    pub(crate) fn into_loose(self) -> Loose<Session, Global>
        requires { IsSome self.value }
        ensures { self.value ≡ Some result.value }
    {
        let Slot { at, alloc } = self;
        Loose {
            at: at as *mut Session,
            alloc,
        }
    }
}
