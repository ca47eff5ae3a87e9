//! Edits of a session, and the replies to them.
ghost use Rattle.std.specs.Prelude.{◌≡◌};
ghost use Rattle.aout_core.specs.Refusals.{refused};
ghost use Rattle.link_out.specs.{Runs.run_fault_of, declared.edit.RunFault.TheVariants.Memory};

use crate::linked::LinkFault;
use aout_core::{Object, Refused};
use link_session::AddFault;
use std::alloc::AllocError;
use thiserror::Error;

/// A change of the objects that a session keeps.
#[derive(Debug, Drop)]
pub enum Edit {
    /// Appends this object, known by this label.
    Add(String, Object),
    /// Takes the last object away.
    Withdraw,
}

/// The reply to an edit.
#[derive(Debug, Drop)]
pub enum Reply {
    /// The object was appended.
    Added,
    /// The object was not added, for another cause than memory.
    Refused(AddFault),
    /// The object with this label was taken away.
    Withdrew(String),
    /// There was no object to take away.
    Nothing,
}

/// Why a run gave no link.
#[derive(Clone, Copy, Debug, PartialEq, Eq, Error)]
pub enum RunFault {
    /// 1: memory ran out, in any step.
    #[error("no memory")]
    Memory(Refused),
    /// 2: the link was refused, for another cause than memory.
    #[error("{0}")]
    Link(LinkFault),
}

impl From<AllocError> for RunFault {
    ghost from_gives = { λ _ fault. fault ≡ Memory refused };

    fn from(error: AllocError) -> RunFault {
        RunFault::Memory(Refused::from(error))
    }
}

impl From<Refused> for RunFault {
    ghost from_gives = { λ _ fault. fault ≡ Memory refused };

    fn from(refused: Refused) -> RunFault {
        RunFault::Memory(refused)
    }
}

impl From<LinkFault> for RunFault {
    ghost from_gives = { λ fault gives. gives ≡ run_fault_of fault };

    fn from(fault: LinkFault) -> RunFault {
        match fault {
            LinkFault::Memory(refused) => RunFault::Memory(refused),
            refusal => RunFault::Link(refusal),
        }
    }
}
