//! Why the system did not do what it was asked at a path.
use std::fs::FileType;
use std::io;

/// The system did not open or make the file at a path, or did not say what is there; or that is a device, a FIFO or a socket, and is not
/// opened. It is made only of the error of the system, or of the type of that file.
#[derive(Clone, Copy, Debug, PartialEq, Eq)]
pub struct PathFault(());

impl From<io::Error> for PathFault {
    ghost use Rattle.std.specs.Prelude.{◌≡◌};
    ghost use Rattle.host.specs.Events.{path_fault};

    ghost from_gives = { λ _ fault. fault ≡ path_fault };

    fn from(_: io::Error) -> PathFault {
        PathFault(())
    }
}

impl From<FileType> for PathFault {
    ghost use Rattle.std.specs.Prelude.{◌≡◌};
    ghost use Rattle.host.specs.Events.{path_fault};

    ghost from_gives = { λ _ fault. fault ≡ path_fault };

    fn from(_: FileType) -> PathFault {
        PathFault(())
    }
}
