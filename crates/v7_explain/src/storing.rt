//! The listing of a file, stored in place of being written to standard output.
ghost use Rattle.v7_explain.specs.Runs.{IsStoring, StoresListing};

use crate::explaining::{MOST_BYTES, Mode, explain};
use crate::program::NAME;
use crate::source::Source;
use host::{Answer, Fault, FileSystem, answer_stored, check_output, read_whole};
use std::alloc::Global;

/// Stores a listing, if nothing is wrong with the file; else the answer says what is wrong.
fn store<O: FileSystem>(
    alloc: Global,
    file_system: &mut O,
    to: &str,
    said: Answer,
) -> Result<Answer, Fault>
    ensures { IsStoring to.now said (O.history file_system.old) (O.history file_system.new) result }
{
    let Answer {
        output,
        errors,
        status,
    } = said;
    let rest = Answer {
        output: Vec::new(alloc),
        errors,
        status,
    };
    if status != 0 {
        return Ok(rest);
    }
    let stored = file_system.store_text(to, &output);
    answer_stored(alloc, NAME, to, stored, rest)
}

/// Stores the listing of the file at a path, if nothing is wrong with the file.
pub(crate) fn store_listing<O: FileSystem>(
    alloc: Global,
    file_system: &mut O,
    to: &str,
    path: &str,
) -> Result<Answer, Fault>
    ensures { StoresListing to.now path.now (O.history file_system.old) (O.history file_system.new) result }
{
    check_output(alloc, file_system, NAME, path, to)?;
    let bytes = read_whole(alloc, file_system, NAME, path, MOST_BYTES)?;
    let source = Source {
        path,
        bytes: &bytes,
    };
    let said = explain(alloc, Mode::Listing(true), source)?;
    store(alloc, file_system, to, said)
}
