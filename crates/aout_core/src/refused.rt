//! What a refused request for memory leaves.

use std::alloc::{AllocError, AllocFailed};
use std::io;
use thiserror::Error;

/// A request for memory was refused: it is made only of the error of such a request. So a fault that carries one says `no
/// memory` only after a refusal.
#[derive(Clone, Copy, Debug, PartialEq, Eq, Error)]
#[error("no memory")]
pub struct Refused {
    error: AllocError,
}

impl Refused {
    /// The refusal that an error of the kind `OutOfMemory` reports.
    pub fn reported_by(error: &io::Error) -> Option<Refused> {
        match error.kind() {
            io::ErrorKind::OutOfMemory => Some(Refused { error: AllocError }),
            _ => None,
        }
    }
}

impl From<AllocError> for Refused {
    fn from(error: AllocError) -> Refused {
        Refused { error }
    }
}

impl<T: Drop> From<AllocFailed<T>> for Refused {
    fn from(error: AllocFailed<T>) -> Refused {
        Refused {
            error: AllocError::from(error),
        }
    }
}

impl From<Refused> for AllocError {
    fn from(refused: Refused) -> AllocError {
        refused.error
    }
}
