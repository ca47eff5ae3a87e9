//! What standard error takes of a writer, and the errors that it returns.
use host::StandardError;
use std::cell::Cell;
use std::fmt::{Display, Write as _};
use std::io::{ErrorKind, Write};
use std::{fmt, io};

/// A standard error that takes nothing.
#[derive(Drop)]
struct Closed;

impl Eprint for Closed {
    fn eprint<D: Display + Drop>(&self, _value: D) -> io::Result<()> {
        Err(io::Error::from(ErrorKind::BrokenPipe))
    }

    fn eprintln<D: Display + Drop>(&self, value: D) -> io::Result<()> {
        self.eprint(value)
    }
}

/// The kind of the error that standard error returns for these bytes.
fn refusal(bytes: &[u8]) -> Option<ErrorKind> {
    let error = StandardError::new(&Closed).write(bytes).err()?;
    Some(error.kind())
}

/// A standard error that counts the bytes that it takes.
#[derive(Drop)]
struct Counting {
    taken: Cell<usize>,
}

/// How many bytes were written.
#[derive(Drop)]
struct Count(usize);

impl fmt::Write for Count {
    fn write_str(&mut self, text: &str) -> fmt::Result {
        self.0 = self.0.saturating_add(text.len());
        Ok(())
    }
}

impl Eprint for Counting {
    fn eprint<D: Display + Drop>(&self, value: D) -> io::Result<()> {
        let mut count = Count(self.taken.get());
        let _ = write!(count, "{value}");
        self.taken.set(count.0);
        Ok(())
    }

    fn eprintln<D: Display + Drop>(&self, value: D) -> io::Result<()> {
        self.eprint(value)
    }
}

/// A piece of each length goes out whole.
#[test]
fn pieces_of_standard_error(rt: HostRuntime) {
    let text = [b'x'; 5_000];
    for length in 0..5_000 {
        let error = Counting {
            taken: Cell::new(0),
        };
        let written = StandardError::new(&error).write(&text[..length]).ok();
        assert!(rt; written == Some(length) && error.taken.get() == length);
    }
}

#[test]
fn errors_of_standard_error(rt: HostRuntime) {
    assert!(rt; refusal(b"x") == Some(ErrorKind::BrokenPipe));
    assert!(rt; refusal(b"\xff") == Some(ErrorKind::InvalidData));
}
