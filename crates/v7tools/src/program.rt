//! The program: its arguments decide the call, over any `FileSystem` and any streams.
ghost use Rattle.std.specs.Prelude.{◌≤◌, map, string_bytes, IfOk};
ghost use Rattle.aout_core.specs.Wires.{IsPassedOn};
ghost use Rattle.v7tools.specs.CommandRuns.{IsCallRun, Performs, RunsWords};

use crate::fault::CliFault;
use crate::files::commands::{list_files, size_files, strip_files};
use crate::link::command::link_files;
use crate::parsing::parse;
use crate::session::command::answer_script;
use crate::setting::Setting;
use crate::status::Status;
use aout_core::{BufferedWrite, Wire};
use command_words::{BlockWriter, Call};
use host::{Disk, FileSystem, Outputs, StandardError};
use std::alloc::Global;
use std::io;
use std::io::{Read, Write};
use std::rt::Runtime;

/// Runs a call of a tool.
fn run_call<O: FileSystem, R: Read + Drop, W: BufferedWrite>(
    alloc: Global,
    file_system: &mut O,
    script: R,
    output: &mut Wire<W>,
    call: Call,
) -> Result<Status, CliFault>
    ensures run { IsCallRun W.contents (R.remaining script) call
        (O.history file_system.old) (O.history file_system.new) result output.old output.new }
    ensures passed { IsPassedOn W.waiting output.old → IsPassedOn W.waiting output.new }
{
    match call {
        Call::Ld {
            options,
            forced,
            out,
            files,
        } => {
            let setting = Setting {
                alloc,
                options: &options,
            };
            link_files(&setting, file_system, &forced, files, out, output)
        }
        Call::Nm { options, files } => list_files(alloc, file_system, options, files, output),
        Call::Size { files } => size_files(alloc, file_system, files, output),
        Call::Strip { files } => strip_files(alloc, file_system, files),
        Call::Session { options, forced } => {
            let setting = Setting {
                alloc,
                options: &options,
            };
            answer_script(&setting, file_system, &forced, script, output)
        }
    }
}

/// Runs the call that the words ask for.
fn run_words<O: FileSystem, R: Read + Drop, W: BufferedWrite>(
    alloc: Global,
    file_system: &mut O,
    script: R,
    output: &mut Wire<W>,
    words: Vec<String>,
) -> Result<Status, CliFault>
    ensures run { RunsWords W.contents (map string_bytes words.items) (R.remaining script)
        (O.history file_system.old) (O.history file_system.new) result output.old output.new }
    ensures passed { IsPassedOn W.waiting output.old → IsPassedOn W.waiting output.new }
{
    let call = parse(alloc, words)?;
    run_call(alloc, file_system, script, output, call)
}

/// Does what the arguments ask for, over any `FileSystem` and any streams, and returns a fault in place of writing its line. If nothing
/// waited on standard output before, nothing waits at the end either, unless it has failed.
pub fn attempt<O: FileSystem, R: Read + Drop, W: BufferedWrite>(
    alloc: Global,
    file_system: &mut O,
    script: R,
    output: &mut Wire<W>,
    words: Vec<String>,
) -> Result<u8, CliFault>
    ensures small { IfOk result (λ status. status ≤ 1) }
    ensures run { RunsWords W.contents (map string_bytes words.items) (R.remaining script)
        (O.history file_system.old) (O.history file_system.new) result output.old output.new }
    ensures passed { IsPassedOn W.waiting output.old → IsPassedOn W.waiting output.new }
{
    match run_words(alloc, file_system, script, output, words) {
        Ok(status) => Ok(status.code()),
        Err(fault) => Err(fault),
    }
}

/// Does what the arguments ask for, over any `FileSystem` and any streams: a session's script, standard
/// output and standard error. It returns the status of the program: 0, or 1 if there was something to report or a
/// session refused a line or could not store a link, or 2 for a fault, whose line goes to standard error; without a
/// fault nothing goes there. If nothing waited on standard output before, nothing waits at the end either, unless it
/// has failed.
pub fn perform<O: FileSystem, R: Read + Drop, W: BufferedWrite, E: Write>(
    alloc: Global,
    file_system: &mut O,
    script: R,
    outputs: &mut Outputs<W, E>,
    words: Vec<String>,
) -> u8
    ensures small { result ≤ 2 }
    ensures run { Performs W.contents E.contents (map string_bytes words.items) (R.remaining script)
        (record { asked = O.history file_system.old; output = outputs.old.output; error = outputs.old.error })
        (record { asked = O.history file_system.new; output = outputs.new.output; error = outputs.new.error }) result }
    ensures passed { IsPassedOn W.waiting outputs.old.output
        → IsPassedOn W.waiting outputs.new.output }
{
    match attempt(alloc, file_system, script, &mut outputs.output, words) {
        Ok(status) => status,
        Err(fault) => {
            let _ = fault.write(&mut outputs.error);
            2
        }
    }
}

/// Does what the arguments ask for, and returns the status of the program:
///
/// - 0, or 1 if there was something to report, or if a session refused a line or could not store a link.
/// - 2 for a fault, whose line goes to standard error. The arguments or an input were refused before any output, or memory
///   ran out, or no file could be made at a path, or a device failed while it was written, or a script could not be
///   answered to its end. What was stored before then stays.
pub fn command<H: Runtime + AllocGlobal>(rt: &H, words: Vec<String>) -> u8
    ensures { result ≤ 2 }
{
    let mut file_system = Disk::new(rt);
    let mut outputs = Outputs {
        output: Wire::new(BlockWriter::new(io::writer(rt))),
        error: Wire::new(StandardError::new(rt)),
    };
    perform(
        rt.alloc(),
        &mut file_system,
        rt.reader(),
        &mut outputs,
        words,
    )
}
