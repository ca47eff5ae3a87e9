//! Files that are read whole.
use crate::refused::Refused;
use thiserror::Error;

/// Why a file was not read.
#[derive(Clone, Copy, Debug, PartialEq, Eq, Error)]
pub enum FileFault {
    /// There is no such file, or it may not be read.
    #[error("cannot open")]
    NotOpened,
    #[error("read error")]
    Failed,
    #[error("no memory")]
    Memory(Refused),
}
