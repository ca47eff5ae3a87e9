//! Why words ask for no call.
ghost use Rattle.std.specs.Prelude.{◌≡◌};
ghost use Rattle.aout_core.specs.Refusals.{refused};
ghost use Rattle.clap.specs.Values.{kind_of};
ghost use Rattle.command_words.specs.{Calls.fault_of_words, declared.fault.WordsFault.TheVariants.Memory};

use aout_core::Refused;
use clap::error::ErrorKind;
use std::alloc::{AllocError, AllocFailed};
use thiserror::Error;

/// Why there is no call.
#[derive(Clone, Copy, Debug, PartialEq, Eq, Error)]
pub enum WordsFault {
    /// 1: the words ask for nothing that there is.
    #[error("usage")]
    Usage,
    /// 9: memory ran out.
    #[error("no memory")]
    Memory(Refused),
}

impl From<clap::Error> for WordsFault {
    ghost from_gives = { λ error fault. fault ≡ fault_of_words (kind_of error) };

    fn from(error: clap::Error) -> WordsFault {
        match error.kind() {
            ErrorKind::OutOfMemory => WordsFault::Memory(Refused::from(AllocError)),
            _ => WordsFault::Usage,
        }
    }
}

impl From<AllocError> for WordsFault {
    ghost from_gives = { λ _ fault. fault ≡ Memory refused };

    fn from(error: AllocError) -> WordsFault {
        WordsFault::Memory(Refused::from(error))
    }
}

impl<T: Drop> From<AllocFailed<T>> for WordsFault {
    ghost from_gives = { λ _ fault. fault ≡ Memory refused };

    fn from(error: AllocFailed<T>) -> WordsFault {
        WordsFault::Memory(Refused::from(error))
    }
}
