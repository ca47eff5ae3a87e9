//! The command ld, over any `FileSystem`.
ghost use Rattle.std.specs.Prelude.{map, string_bytes};
ghost use Rattle.aout_core.specs.Wires.{IsPassedOn};
ghost use Rattle.link_out.specs.Outcomes.{report_names};
ghost use Rattle.v7tools.specs.{LinkRuns.{IsLinkRun, Reports, ReportsIf, closings}, internal.{InputParts.stopped_at, Openings.IsOpening}};
ghost use Rattle.host.specs.Events.{Extends};

use crate::fault::CliFault;
use crate::link::linking::ld_of_session;
use crate::setting::Setting;
use crate::status::Status;
use aout_core::{BufferedWrite, Wire};
use host::{FileSystem, Stored};
use link_out::Report;
use link_session::Forced;
use std::alloc::Global;
use std::mem::forget;

/// Opens the files in order, all before any is read.
fn open_all<O: FileSystem>(
    alloc: Global,
    file_system: &mut O,
    files: Vec<String>,
) -> Result<Vec<(String, Wire<O::Source>)>, CliFault>
    ensures { IsOpening O.Source.remaining
        (O.history file_system.old) (O.history file_system.new) files.items result }
{
    let mut inputs = Vec::with_capacity(alloc, files.len())?;
    for path in files {
        let Ok(source) = file_system.open(path.as_str()) else {
            return Err(CliFault::CannotOpen(path));
        };
        inputs.push((path, Wire::new(source))).unwrap();
    }
    Ok(inputs)
}

/// Closes the file at which a link stopped, if it did at one.
fn close_stopped<O: FileSystem>(file_system: &mut O, stopped: Option<Wire<O::Source>>)
    ensures { Extends (O.history file_system.old) (O.history file_system.new) (closings (stopped_at stopped)) }
{
    if let Some(wire) = stopped {
        file_system.close(wire);
    }
}

/// Writes a report and flushes it, and returns its status.
fn put_report<W: BufferedWrite>(report: &Report, output: &mut Wire<W>) -> Result<Status, CliFault>
    ensures run { Reports W.contents (report_names report.now) result output.old output.new }
    ensures passed { IsPassedOn W.waiting output.new }
{
    report.write(output)?;
    output.pass_on()?;
    Ok(Status::new(report.status()))
}

/// Reports a link, once it is known what became of its file.
fn report_stored<W: BufferedWrite>(
    report: &Report,
    out: String,
    stored: Stored,
    output: &mut Wire<W>,
) -> Result<Status, CliFault>
    ensures run { ReportsIf W.contents stored out
        (report_names report.now) result output.old output.new }
    ensures passed { IsPassedOn W.waiting output.old → IsPassedOn W.waiting output.new }
{
    match stored {
        Stored::Kept => put_report(report, output),
        Stored::NotCreated(_) => Err(CliFault::CannotCreate(out)),
        Stored::Failed(fault) => Err(CliFault::WriteFailed(fault)),
    }
}

/// Links files, after the forced names, into the file at `out`, and writes the report to `output`.
pub(crate) fn link_files<O: FileSystem, W: BufferedWrite>(
    setting: &Setting<'_>,
    file_system: &mut O,
    forced: &Forced,
    files: Vec<String>,
    out: String,
    output: &mut Wire<W>,
) -> Result<Status, CliFault>
    ensures run { IsLinkRun W.contents forced.now setting.now.options.now out
        (map string_bytes files.items)
        (O.history file_system.old) (O.history file_system.new) result output.old output.new }
    ensures passed { IsPassedOn W.waiting output.old → IsPassedOn W.waiting output.new }
{
    let inputs = open_all(setting.alloc, file_system, files)?;
    let (linked, session) = match ld_of_session(setting.alloc, inputs, forced, setting.options) {
        Ok(made) => made,
        Err((fault, stopped)) => {
            close_stopped(file_system, stopped);
            return Err(fault);
        }
    };
    // the program ends soon, and the system takes all memory back at once
    forget(session);
    let stored = file_system.store(out.as_str(), &linked.file);
    report_stored(&linked.report, out, stored, output)
}
