//! A script, with the faults of the program.
ghost use Rattle.std.specs.Prelude.{◌≡◌, ◌↔◌, ◌<◌, Err, IfErr, IfOk, IsTrue, length};
ghost use Rattle.aout_core.specs.{declared.block.TheConstants.BLOCK_SIZE, Refusals.refused};
ghost use Rattle.command_words.specs.ScriptAnswers.{begun};
ghost use Rattle.v7tools.specs.{declared.fault.CliFault.TheVariants.{Memory, ScriptFailed}, ScriptCalls.{ReturnsNext, returned}};

use crate::fault::CliFault;
use aout_core::Wire;
use command_words::{Line, LineReader, Stop};
use std::alloc::Global;
use std::io::Read;
use std::marker::Model;

/// What a call of a script returns, by what the reader of its lines gives.
fn returned(answer: Result<Line, Stop>) -> Result<Option<Line>, CliFault>
    ensures { result ≡ returned answer }
{
    match answer {
        Ok(line) => Ok(Some(line)),
        Err(Stop::End) => Ok(None),
        Err(Stop::LongLine) => Err(CliFault::LongLine),
        Err(Stop::ManyLines) => Err(CliFault::ManyLines),
        Err(Stop::ReadFailed) => Err(CliFault::ScriptFailed),
        Err(Stop::Memory(refused)) => Err(CliFault::Memory(refused)),
    }
}

/// A script, read in blocks and given line by line.
#[derive(Drop)]
pub struct Script<R> {
    lines: LineReader<R>,
}

impl<R> Model for Script<R> {
    ghost use Rattle.command_words.specs.ScriptAnswers.{Progress};

    ghost Value = { Progress R };

    ghost view = { λ s. s.lines };
}

impl<R: Read + Drop> Script<R> {
    /// A script of which no line was read. It requests memory for a line.
    ///
    /// Errors: `Memory`, 9, if memory runs out for a line.
    pub fn new(alloc: Global, wire: Wire<R>) -> Result<Script<R>, CliFault>
        ensures ok { IfOk result (λ script. script ≡ begun wire) }
        ensures err { IfErr result (λ fault. fault ≡ Memory refused) }
    {
        let lines = LineReader::new(alloc, wire)?;
        Ok(Script { lines })
    }

    /// The next line, or `None` at the end and at every later call. A line ends at a newline; a last one without it
    /// counts if it is not empty, and the reader is not asked again after it. The reader is asked for a block, one
    /// read at a time, only while what the script holds does not settle the result: no whole line, at most 4,096 bytes
    /// of one, and no byte after the last line that it may give. What a read gives is used at once.
    ///
    /// Errors: `LongLine`, 11, for more than 4,096 bytes before a newline; `ManyLines`, 12, if there is anything
    /// after 1,000,000 lines; `ScriptFailed`, 13, if the device failed; `Memory`, 9, if memory runs out for a
    /// path. Every later call returns the fault again.
    pub fn next_line(&mut self) -> Result<Option<Line>, CliFault>
        ensures next { ReturnsNext R.remaining self.old self.new result }
        ensures failed { (result ≡ Err ScriptFailed) ↔ IsTrue self.new.wire.has_failed }
        ensures ahead { length self.new.held < BLOCK_SIZE }
    {
        returned(self.lines.next_line())
    }
}
