//! The lines of a session as they are typed, with a prompt before each.
ghost use Rattle.std.specs.Prelude.{◌≤◌};

use super::answers::Answer;
use super::near::put_hint;
use std::cell::Cell;
use std::io::{BufRead, Input, Read};
use std::rt::Runtime;
use std::{io, str};

const HELP: &str = "add PATH, withdraw, externals, undefined and link PATH are the commands;
list shows the objects, help this text, and quit ends the session
";

/// Whether the answer to this addition says that the object is added: `added PATH` and a newline.
fn is_added(path: &[u8], answer: Answer) -> bool {
    answer.is_addition && answer.bytes == path.len().saturating_add(7)
}

/// Standard input as a script. `help` and `?` show help, `list` the objects that are added, `quit` and `exit` end the script, and a
/// blank line is passed over; all other lines are given as they are typed.
#[derive(Drop)]
pub(crate) struct Prompts<'a, H: Runtime> {
    rt: &'a H,
    input: <H as Input>::Reader,
    /// The line that is being given, and how many of its bytes were.
    line: Vec<u8>,
    given: usize,
    /// The answer to it, which standard output notes.
    answer: &'a Cell<Answer>,
    /// The paths of the objects that are added, each with a newline.
    added: Vec<u8>,
    lines: u64,
    is_begun: bool,
    is_over: bool,
}

impl<'a, H: Runtime + AllocGlobal> Prompts<'a, H> {
    pub(crate) fn new(rt: &'a H, answer: &'a Cell<Answer>) -> Prompts<'a, H> {
        Prompts {
            rt,
            input: rt.reader(),
            line: Vec::new(rt.alloc()),
            given: 0,
            answer,
            added: Vec::new(rt.alloc()),
            lines: 0,
            is_begun: false,
            is_over: false,
        }
    }

    /// Notes what was done for the line before, and writes a hint if it was not a command.
    fn settle(&mut self) -> io::Result<()> {
        let line = self.line.strip_suffix(b"\n").unwrap_or(&self.line);
        let answer = self.answer.replace(Answer::NONE);
        if let Some(path) = line.strip_prefix(b"add ") {
            if is_added(path, answer) {
                self.added.extend_from_slice(path)?;
                self.added.push(b'\n')?;
            }
        } else if line == b"withdraw".as_slice() {
            let paths = self.added.strip_suffix(b"\n").unwrap_or(b"");
            let before = paths.iter().rposition(|byte| *byte == b'\n');
            self.added
                .truncate(before.map_or(0, |newline| newline.saturating_add(1)));
        } else if !line.is_empty() {
            let _ = put_hint(self.rt, line);
        }
        Ok(())
    }

    /// Shows the objects that are added.
    fn list(&self) {
        let _ = match str::from_utf8(&self.added) {
            Ok("") => self.rt.eprint("no object is added\n"),
            Ok(paths) => self.rt.eprint(paths),
            Err(_) => Ok(()),
        };
    }

    /// Reads lines up to one for the session; there is none at the end. Blanks around a line that is not for it do not count.
    fn next_line(&mut self) -> io::Result<()> {
        if !self.is_begun {
            self.is_begun = true;
            let _ = self.rt.eprint(HELP);
        }
        self.settle()?;
        self.given = 0;
        for _ in 0..u64::MAX {
            self.line.clear();
            if self.is_over {
                return Ok(());
            }
            let _ = self.rt.eprint("v7> ");
            let count = self.input.read_until(b'\n', &mut self.line)?;
            if !self.line.ends_with(b"\n") {
                self.is_over = true;
                let _ = self.rt.eprint("\n");
            }
            if count == 0 {
                return Ok(());
            }
            match self.line.trim_ascii() {
                b"" => {}
                b"help" | b"?" => {
                    let _ = self.rt.eprint(HELP);
                }
                b"list" => self.list(),
                b"quit" | b"exit" => self.is_over = true,
                _ => {
                    self.lines = self.lines.saturating_add(1);
                    return Ok(());
                }
            }
        }
        Ok(())
    }

    /// Writes how a session ended, if there was one.
    pub(crate) fn end(&self, status: u8) {
        if self.is_begun {
            let what = if status == 0 {
                "each was done, and no link had anything to report"
            } else {
                "a line was refused, or a link had something to report"
            };
            let plural = if self.lines == 1 { "" } else { "s" };
            let _ = eprintln!(self.rt;
                "end of the session: {} command{plural}, status {status}: {what}",
                self.lines
            );
        }
    }
}

impl<H: Runtime + AllocGlobal> Read for Prompts<'_, H> {
    fn read(&mut self, buf: &mut [u8]) -> io::Result<usize> {
        if self.given >= self.line.len() {
            self.next_line()?;
        }
        let Some(rest) = self.line.get(self.given..) else {
            return Ok(0);
        };
        let n = rest.len().min(buf.len());
        buf[..n].copy_from_slice(&rest[..n]);
        self.given = self.given.saturating_add(n);
        Ok(n)
    }
}
