//! What opens and stores the files of a command.
ghost use Rattle.std.specs.{Prelude.{◌≡◌, [], ◌∷◌, List, None, Option}, Option.option_map, Result.result_ok};
ghost use Rattle.host.specs.{Answers.is_none, Sources.{is_kept, stored_text}, Events.{Event, Extends, closed, looked, opened, stored, written}};

use crate::nodes::Found;
use crate::path_fault::PathFault;
use aout_core::{DeviceFault, File, Wire};
use std::io::Read;

/// What became of a file that was to be stored.
#[derive(Clone, Copy, Debug, PartialEq, Eq)]
pub enum Stored {
    /// It is stored whole.
    Kept,
    /// No file can be made at its path.
    NotCreated(PathFault),
    /// Its device failed while it was written.
    Failed(DeviceFault),
}

/// The files of a command, by their paths. Its `history` lists what it was asked, where that is known.
pub trait FileSystem {
    /// A file that is open.
    type Source: Read + Drop;

    ghost history: { Self → Option (List Event) } = { λ _. None };

    /// Opens the file at a path, if it can be opened.
    fn open(&mut self, path: &str) -> Result<Self::Source, PathFault>
        ensures { Extends (history self.old) (history self.new)
            (opened path.now (option_map Self.Source.remaining (result_ok result)) ∷ []) };

    /// Closes a file, whose device has failed or has not.
    fn close(&mut self, source: Wire<Self::Source>)
        ensures { Extends (history self.old) (history self.new) (closed source.has_failed ∷ []) };

    /// What a path leads to.
    fn node(&mut self, path: &str) -> Found
        ensures { Extends (history self.old) (history self.new) (looked path.now result ∷ []) };

    /// Makes a file at a path, or empties the one that is there, and writes it; returns what became of it.
    fn store(&mut self, path: &str, file: &File) -> Stored
        ensures { Extends (history self.old) (history self.new)
            (stored path.now file.now result ∷ []) };

    /// Makes a file at a path, or empties the one that is there, and writes a text to it; returns what became of it.
    fn store_text(&mut self, path: &str, text: &[u8]) -> Stored
        ensures { Extends (history self.old) (history self.new)
            (written path.now text.now result ∷ []) };
}

/// What is said of a path at which no file can be made.
pub(crate) const NOT_CREATED: &str = "cannot create";

/// What is said of the path of a file that was not stored.
pub fn stored_text(stored: Stored) -> Option<&'static str>
    ensures kept { is_none result ≡ is_kept stored }
    ensures said { option_map (λ text. text.now) result ≡ stored_text stored }
{
    match stored {
        Stored::Kept => None,
        Stored::NotCreated(_) => Some(NOT_CREATED),
        Stored::Failed(_) => Some("write error"),
    }
}
