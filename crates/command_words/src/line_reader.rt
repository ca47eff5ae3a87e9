//! The reader of the lines of a script.
ghost use Rattle.std.specs.Prelude.{◌≡◌, ◌↔◌, ◌+◌, ◌<◌, ◌≤◌, [], IfErr, IfOk, IsTrue, None, length, vec_capacity, vec_len};
ghost use Rattle.aout_core.specs.declared.block.TheConstants.{BLOCK_SIZE};
ghost use Rattle.command_words.specs.declared.lines.TheConstants.{LINE_LIMIT};
ghost use Rattle.command_words.specs.ScriptAnswers.{GivesNext, HasLine, WhereKnown, NeedsNoMore, begun, unread};
ghost use Rattle.command_words.specs.internal.LineParts.{EndsLine, IsStopOf, IsTakenOf};

use crate::block_reader::BlockReader;
use crate::lines::{LINE_LIMIT, Line};
use aout_core::{Refused, Wire};
use std::alloc::{AllocError, Global};
use std::io::Read;
use std::marker::Model;

/// The most lines of a script.
const LINES_LIMIT: u32 = 1000000;

/// What ended a line.
#[derive(Clone, Copy, Debug, PartialEq, Eq)]
enum Ending {
    Newline,
    End,
    Long,
    Failed,
}

/// Why a script gives no further line.
#[derive(Clone, Copy, Debug, PartialEq, Eq)]
pub enum Stop {
    /// It is at its end.
    End,
    /// A line has more than 4,096 bytes.
    LongLine,
    /// There is something after 1,000,000 lines.
    ManyLines,
    /// Its device failed.
    ReadFailed,
    /// Memory ran out for a path.
    Memory(Refused),
}

/// Takes a line with its newline, and keeps it without; of one over `LINE_LIMIT` bytes it takes a byte more than that.
fn read_line<R: Read>(reader: &mut BlockReader<R>, line: &mut Vec<u8>) -> Ending
    requires { LINE_LIMIT ≤ vec_capacity line.old }
    ensures space { LINE_LIMIT ≤ vec_capacity line.new }
    ensures failed { (result ≡ Ending.Failed) ↔ IsTrue reader.new.wire.has_failed }
    ensures latched { IsTrue reader.old.wire.has_failed → (reader.new ≡ reader.old) }
    ensures ends { EndsLine result (unread R.remaining reader.old.held reader.old.wire) (unread
        R.remaining reader.new.held reader.new.wire) line.new.items }
    ensures untouched { HasLine reader.old.held → reader.new.wire ≡ reader.old.wire }
    ensures long { result ≡ Ending.Long → vec_len line.new ≡ LINE_LIMIT }
    ensures short { vec_len line.new ≤ LINE_LIMIT }
{
    line.clear();
    if reader.failed() {
        return Ending::Failed;
    }
    for _ in 0..LINE_LIMIT {
        match reader.next_byte() {
            Ok(Some(b'\n')) => return Ending::Newline,
            Ok(Some(byte)) => line.push(byte).unwrap(),
            Ok(None) => return Ending::End,
            Err(_) => return Ending::Failed,
        }
    }
    match reader.next_byte() {
        Ok(Some(b'\n')) => Ending::Newline,
        Ok(Some(_)) => Ending::Long,
        Ok(None) => Ending::End,
        Err(_) => Ending::Failed,
    }
}

/// Asks whether there is a line after the last one that a script may have, and returns why there is none to give.
fn stop_at_limit<R: Read>(reader: &mut BlockReader<R>) -> Stop
    ensures failed { (result ≡ Stop.ReadFailed) ↔ IsTrue reader.new.wire.has_failed }
    ensures latched { IsTrue reader.old.wire.has_failed → (reader.new ≡ reader.old) }
    ensures value { WhereKnown (unread R.remaining reader.old.held reader.old.wire) (unread
        R.remaining reader.new.held reader.new.wire)
        (λ bytes left. IsStopOf 1000000 bytes left result) }
    ensures untouched { (reader.old.held ≡ [] → ⊥) → reader.new.wire ≡ reader.old.wire }
{
    match reader.next_byte() {
        Ok(Some(_)) => Stop::ManyLines,
        Ok(None) => Stop::End,
        Err(_) => Stop::ReadFailed,
    }
}

/// Takes the line after `line_count` others, and returns whether the script ended with it.
fn take_line<R: Read>(
    reader: &mut BlockReader<R>,
    line: &mut Vec<u8>,
    line_count: u32,
) -> Result<bool, Stop>
    requires space { LINE_LIMIT ≤ vec_capacity line.old }
    requires few { line_count ≤ LINES_LIMIT }
    ensures space { LINE_LIMIT ≤ vec_capacity line.new }
    ensures few { IfOk result (λ _. line_count + 1 ≤ LINES_LIMIT) }
    ensures failed { IfErr result (λ stop.
        (stop ≡ Stop.ReadFailed) ↔ IsTrue reader.new.wire.has_failed) }
    ensures works { IfOk result (λ _. IsTrue reader.new.wire.has_failed → ⊥) }
    ensures latched { IsTrue reader.old.wire.has_failed → (reader.new ≡ reader.old) }
    ensures value { WhereKnown (unread R.remaining reader.old.held reader.old.wire) (unread
        R.remaining reader.new.held reader.new.wire)
        (λ bytes left. IsTakenOf line_count bytes left line.new.items result) }
    ensures untouched { NeedsNoMore line_count reader.old.held → reader.new.wire ≡ reader.old.wire }
{
    if line_count == LINES_LIMIT {
        return Err(stop_at_limit(reader));
    }
    match read_line(reader, line) {
        Ending::Newline => Ok(false),
        Ending::End if line.is_empty() => Err(Stop::End),
        Ending::End => Ok(true),
        Ending::Long => Err(Stop::LongLine),
        Ending::Failed => Err(Stop::ReadFailed),
    }
}

/// A script, read in blocks and given line by line.
#[derive(Drop)]
pub struct LineReader<R> {
    alloc: Global,
    reader: BlockReader<R>,
    line: Vec<u8>,
    line_count: u32,
    stop: Option<Stop>,
}

impl<R> Model for LineReader<R> {
    ghost use Rattle.std.specs.Prelude.{◌≡◌, ◌≤◌, ◌↔◌, IfSome, IsTrue, vec_capacity};
    ghost use Rattle.command_words.specs.{declared.line_reader.Stop.TheVariants.ReadFailed, declared.line_reader.TheConstants.LINES_LIMIT};
    ghost use Rattle.command_words.specs.{declared.lines.TheConstants.LINE_LIMIT, ScriptAnswers.Progress};

    ghost Value = { Progress R };

    ghost view = { λ s. record { wire = s.reader.wire; held = s.reader.held; line_count = s.line_count; settled = s.stop } };

    ghost invariant = { λ s. (LINE_LIMIT ≤ vec_capacity s.line) × (s.line_count ≤ LINES_LIMIT)
        × IfSome s.stop (λ stop. (stop ≡ ReadFailed) ↔ IsTrue s.reader.wire.has_failed) };
}

impl<R: Read + Drop> LineReader<R> {
    /// A script of which no line was read. It requests memory for a line.
    ///
    /// Errors: `AllocError` if memory runs out for a line.
    pub fn new(alloc: Global, wire: Wire<R>) -> Result<LineReader<R>, AllocError>
        ensures { IfOk result (λ script. script ≡ begun wire) }
    {
        let line = Vec::with_capacity(alloc, LINE_LIMIT)?;
        Ok(LineReader {
            alloc,
            reader: BlockReader::new(wire),
            line,
            line_count: 0,
            stop: None,
        })
    }

    /// The next line. A line ends at a newline; a last one without it counts if it is not empty, and the device is not
    /// asked again after it. The device is asked for a block, one read at a time, only while what is held does not
    /// settle the result: no whole line, at most 4,096 bytes of one, and no byte after the last line that may be given.
    /// What a read gives is used at once.
    ///
    /// Errors: `End` at the end; `LongLine` for more than 4,096 bytes before a newline; `ManyLines` if there is
    /// anything after 1,000,000 lines; `ReadFailed` if the device failed; `Memory` if memory runs out for a path.
    /// Every later call returns the same again.
    pub fn next_line(&mut self) -> Result<Line, Stop>
        ensures next { GivesNext R.remaining self.old self.new result }
        ensures ahead { length self.new.held < BLOCK_SIZE }
    {
        if let Some(stop) = self.stop {
            return Err(stop);
        }
        let is_last = match take_line(&mut self.reader, &mut self.line, self.line_count) {
            Ok(is_last) => is_last,
            Err(stop) => {
                self.stop = Some(stop);
                return Err(stop);
            }
        };
        let line = match Line::from_bytes(self.alloc, &self.line) {
            Ok(line) => line,
            Err(error) => {
                let refused = Refused::from(error);
                self.stop = Some(Stop::Memory(refused));
                return Err(Stop::Memory(refused));
            }
        };
        self.line_count += 1;
        if is_last {
            self.stop = Some(Stop::End);
        }
        Ok(line)
    }
}
