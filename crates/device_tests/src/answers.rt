//! When what a command prints goes out: how often it is flushed, that a session's answer is flushed before the next line is read,
//! and that a flush that fails ends a command.
use crate::fixtures::{path_fault, words};
use aout_core::samples::{C_O, Failing, TestReader, TestWriter};
use aout_core::{File, Wire};
use host::{Found, PathFault};
use std::alloc::{AllocError, Global};
use std::cell::Cell;
use std::io;
use std::io::{ErrorKind, Read, Write};
use std::test::Fail;
use v7tools::{BlockWriter, FileSystem, Outputs, Stored, perform};

/// A file system of `c.o` alone, which counts the files that it is given.
#[derive(Drop)]
struct OneObject {
    stored: u32,
}

impl FileSystem for OneObject {
    ghost use Rattle.std.specs.Prelude.{None, [], ◌∷◌};
    ghost use Rattle.host.specs.Events.{Extends, closed};

    type Source = TestReader<'static>;

    fn open(&mut self, path: &str) -> Result<TestReader<'static>, PathFault> {
        match path {
            "c.o" => Ok(TestReader::whole(&C_O)),
            _ => Err(path_fault()),
        }
    }

    fn close(&mut self, source: Wire<TestReader<'static>>)
        ensures { Extends None None (closed source.entry.has_failed ∷ []) }
    {
        drop(source);
    }

    fn node(&mut self, _: &str) -> Found {
        Found::NoFile
    }

    fn store(&mut self, _: &str, _: &File) -> Stored {
        self.stored = self.stored.saturating_add(1);
        Stored::Kept
    }

    fn store_text(&mut self, _: &str, _: &[u8]) -> Stored {
        self.stored = self.stored.saturating_add(1);
        Stored::Kept
    }
}

/// What came of a command: its status, how many files it stored, and its line of a fault.
#[derive(PartialEq, Eq, Drop)]
struct Came {
    status: u8,
    stored: u32,
    error: Vec<u8>,
}

/// Runs a command over a device for what it prints.
fn run<R: Read + Drop, W: Write>(
    alloc: Global,
    arguments: &[&str],
    script: R,
    device: &mut W,
) -> Result<Came, AllocError> {
    let mut outputs = Outputs {
        output: Wire::new(BlockWriter::new(device)),
        error: Wire::new(TestWriter::whole(Vec::new(alloc))),
    };
    let arguments = words(alloc, arguments)?;
    let mut file_system = OneObject { stored: 0 };
    let status = perform(alloc, &mut file_system, script, &mut outputs, arguments);
    Ok(Came {
        status,
        stored: file_system.stored,
        error: outputs.error.into_inner().into_taken(),
    })
}

/// How often the device for what a command prints is flushed.
fn flushes(alloc: Global, arguments: &[&str], script: &str) -> Result<u32, AllocError> {
    let mut device = TestWriter::whole(Vec::new(alloc));
    let script = TestReader::whole(script.as_bytes());
    let _ = run(alloc, arguments, script, &mut device)?;
    Ok(device.flushes())
}

/// The arguments of a command, its script, and how often what it prints is flushed.
static FLUSHES: [(&[&str], &str, u32); 7] = [
    (&["session"], "", 0),
    (&["session"], "withdraw\n", 1),
    (
        &["session"],
        "add c.o\nadd none\nexternals\nundefined\nlink out\nwithdraw\nx\n",
        7,
    ),
    (&["ld", "-o", "out", "c.o"], "", 1),
    (&["nm", "c.o"], "", 1),
    (&["size", "c.o"], "", 1),
    (&["strip", "c.o"], "", 0),
];

#[test]
fn outputs_are_flushed(rt: HostRuntime) -> Result<(), Fail> {
    for (arguments, script, times) in FLUSHES {
        assert!(rt;
            flushes(rt.alloc(), arguments, script)? == times,
            "{times} flushes"
        );
    }
    Ok(())
}

/// A device that holds what is written to it until it is flushed, and tells how many bytes were flushed.
#[derive(Drop)]
struct Held<'a> {
    waiting: usize,
    flushed: &'a Cell<usize>,
}

impl Write for Held<'_> {
    fn write(&mut self, bytes: &[u8]) -> io::Result<usize> {
        self.waiting = self.waiting.saturating_add(bytes.len());
        Ok(bytes.len())
    }

    fn flush(&mut self) -> io::Result<()> {
        self.flushed.set(self.waiting);
        Ok(())
    }
}

/// A reader of lines `withdraw`, one at a time. Before each line, and before the end, it looks whether all lines before are
/// answered by `nothing to withdraw`.
#[derive(Drop)]
struct Typist<'a> {
    lines: TestReader<'a>,
    answered: usize,
    flushed: &'a Cell<usize>,
    was_in_time: &'a Cell<bool>,
}

impl Read for Typist<'_> {
    fn read(&mut self, buf: &mut [u8]) -> io::Result<usize> {
        let is_in_time = self.flushed.get() == self.answered;
        self.was_in_time.set(self.was_in_time.get() && is_in_time);
        self.answered = self.answered.saturating_add("nothing to withdraw\n".len());
        self.lines.read(buf)
    }
}

#[test]
fn answers_before_the_next_line(rt: HostRuntime) -> Result<(), Fail> {
    let flushed = Cell::new(0);
    let was_in_time = Cell::new(true);
    let lines = b"withdraw\nwithdraw\nwithdraw\n";
    let typist = Typist {
        lines: TestReader::new(lines, 9, usize::MAX, ErrorKind::Other),
        answered: 0,
        flushed: &flushed,
        was_in_time: &was_in_time,
    };
    let mut device = Held {
        waiting: 0,
        flushed: &flushed,
    };
    let came = run(rt.alloc(), &["session"], typist, &mut device)?;
    assert!(rt; came.status == 1 && flushed.get() == 60 && was_in_time.get());
    Ok(())
}

/// Whether a command writes just this, fails to flush it, and then ends with status 2, after so many files were stored.
fn ends_unflushed(
    alloc: Global,
    arguments: &[&str],
    script: &str,
    output: &[u8],
    stored: u32,
) -> Result<bool, AllocError> {
    let failure = Failing::Fails(ErrorKind::Other);
    let mut device = TestWriter::new(Vec::new(alloc), usize::MAX, output.len(), failure);
    let script = TestReader::whole(script.as_bytes());
    let came = run(alloc, arguments, script, &mut device)?;
    let wanted = Came {
        status: 2,
        stored,
        error: Vec::from_slice(alloc, b"v7: write error\n")?,
    };
    Ok(came == wanted && device.taken() == output)
}

/// The arguments of a command, its script, what it prints up to the flush that fails, and how many files it stores.
static UNFLUSHED: [(&[&str], &str, &[u8], u32); 6] = [
    (&["session"], "withdraw\n", b"nothing to withdraw\n", 0),
    (&["session"], "add c.o\nlink out\n", b"added c.o\n", 0),
    (
        &["session", "-x"],
        "add c.o\nlink out",
        b"added c.o\nUndefined:\n_f\nlinked out 1\n",
        1,
    ),
    (&["ld", "-o", "out", "c.o"], "", b"Undefined:\n_f\n", 1),
    (&["nm", "c.o"], "", b"000000 t L1\n       U _f\n", 0),
    (&["size", "c.o"], "", b"4+0+0 = 4b = 04b\n", 0),
];

#[test]
fn outputs_that_fail_to_be_flushed(rt: HostRuntime) -> Result<(), Fail> {
    for (arguments, script, output, stored) in UNFLUSHED {
        assert!(rt;
            ends_unflushed(rt.alloc(), arguments, script, output, stored)?,
            "{stored} files"
        );
    }
    Ok(())
}
