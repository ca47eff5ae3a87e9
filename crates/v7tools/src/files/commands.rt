//! The commands nm, size and strip, over any `FileSystem`.
ghost use Rattle.aout_core.specs.Wires.{IsPassedOn};
ghost use Rattle.symtools.specs.{Files.by_bytes, NmLists.nm_text, SizeLines.size_text};
ghost use Rattle.v7tools.specs.FileRuns.{IsStored, IsListRun, IsLoadAt, IsStripping, IsStripRun, Lists, OnlyWriteFailed, OrMemory};
ghost use Rattle.v7tools.specs.internal.Openings.{IsLoading};

use crate::fault::CliFault;
use crate::files::loading::load;
use crate::status::Status;
use aout_core::{BufferedWrite, File, Wire, strip_file};
use host::{FileSystem, Stored};
use std::alloc::Global;
use symtools::{NmOptions, nm, size};

/// Opens, reads and closes the file at a path.
fn load_at<O: FileSystem>(
    alloc: Global,
    file_system: &mut O,
    path: String,
) -> Result<(String, File), CliFault>
    ensures { IsLoadAt (O.history file_system.old) (O.history file_system.new) path result }
{
    match file_system.open(path.as_str()) {
        Ok(source) => {
            let mut wire = Wire::new(source);
            let loaded = load(alloc, path, &mut wire);
            file_system.close(wire);
            loaded
        }
        Err(_) => Err(CliFault::CannotOpen(path)),
    }
}

/// Opens, reads and closes the files in order, each before the next one is opened.
fn load_all<O: FileSystem>(
    alloc: Global,
    file_system: &mut O,
    files: Vec<String>,
) -> Result<Vec<(String, File)>, CliFault>
    ensures { IsLoading (O.history file_system.old) (O.history file_system.new) files.items result }
{
    let mut loaded = Vec::with_capacity(alloc, files.len())?;
    for path in files {
        let file = load_at(alloc, file_system, path)?;
        loaded.push(file).unwrap();
    }
    Ok(loaded)
}

/// Writes the list of the files' symbols. What is listed before memory runs out is written too.
fn put_names<W: BufferedWrite>(
    alloc: Global,
    options: NmOptions,
    files: &[(String, File)],
    output: &mut Wire<W>,
) -> Result<Status, CliFault>
    ensures run { Lists W.contents (OrMemory options (by_bytes files.now))
        (nm_text options (by_bytes files.now)) result output.old output.new }
    ensures passed { IsPassedOn W.waiting output.new }
{
    let listed = nm(alloc, files, options, output);
    output.pass_on()?;
    listed?;
    Ok(Status::new(0))
}

fn put_sizes<W: BufferedWrite>(
    files: &[(String, File)],
    output: &mut Wire<W>,
) -> Result<Status, CliFault>
    ensures run { Lists W.contents (OnlyWriteFailed (by_bytes files.now))
        (size_text (by_bytes files.now)) result output.old output.new }
    ensures passed { IsPassedOn W.waiting output.new }
{
    size(files, output)?;
    output.pass_on()?;
    Ok(Status::new(0))
}

/// Lists the symbols of the files.
pub(crate) fn list_files<O: FileSystem, W: BufferedWrite>(
    alloc: Global,
    file_system: &mut O,
    options: NmOptions,
    files: Vec<String>,
    output: &mut Wire<W>,
) -> Result<Status, CliFault>
    ensures run { IsListRun W.contents (OrMemory options) (nm_text options) files.items
        (O.history file_system.old) (O.history file_system.new) result output.old output.new }
    ensures passed { IsPassedOn W.waiting output.old → IsPassedOn W.waiting output.new }
{
    let loaded = load_all(alloc, file_system, files)?;
    put_names(alloc, options, &loaded, output)
}

/// Lists the sizes of the files.
pub(crate) fn size_files<O: FileSystem, W: BufferedWrite>(
    alloc: Global,
    file_system: &mut O,
    files: Vec<String>,
    output: &mut Wire<W>,
) -> Result<Status, CliFault>
    ensures run { IsListRun W.contents OnlyWriteFailed size_text files.items
        (O.history file_system.old) (O.history file_system.new) result output.old output.new }
    ensures passed { IsPassedOn W.waiting output.old → IsPassedOn W.waiting output.new }
{
    let loaded = load_all(alloc, file_system, files)?;
    put_sizes(&loaded, output)
}

fn check_stored(path: String, stored: Stored) -> Result<(), CliFault>
    ensures { IsStored path stored result }
{
    match stored {
        Stored::Kept => Ok(()),
        Stored::NotCreated(_) => Err(CliFault::CannotCreate(path)),
        Stored::Failed(fault) => Err(CliFault::WriteFailed(fault)),
    }
}

/// Stores each file stripped at its own path, in order; a fault leaves those after it as they were.
fn store_stripped<O: FileSystem>(
    file_system: &mut O,
    loaded: Vec<(String, File)>,
) -> Result<Status, CliFault>
    ensures { IsStripping (O.history file_system.old) (O.history file_system.new) loaded.items result }
{
    for (path, file) in loaded {
        let stored = file_system.store(path.as_str(), &strip_file(file));
        check_stored(path, stored)?;
    }
    Ok(Status::new(0))
}

/// Strips the files in their places, once all of them are read.
pub(crate) fn strip_files<O: FileSystem>(
    alloc: Global,
    file_system: &mut O,
    files: Vec<String>,
) -> Result<Status, CliFault>
    ensures { IsStripRun (O.history file_system.old) (O.history file_system.new) files.items result }
{
    let loaded = load_all(alloc, file_system, files)?;
    store_stripped(file_system, loaded)
}
