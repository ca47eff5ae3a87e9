//! Standard output of a session, with what the prompt has to know of its answers.
use std::cell::Cell;
use std::io;
use std::io::Write;

/// An answer: whether it begins as that of an addition, and how many bytes it has.
#[derive(Clone, Copy)]
pub(crate) struct Answer {
    pub(crate) is_addition: bool,
    pub(crate) bytes: usize,
}

impl Answer {
    /// What is known before the first byte.
    pub(crate) const NONE: Answer = Answer {
        is_addition: false,
        bytes: 0,
    };

    fn with(self, bytes: &[u8]) -> Answer {
        Answer {
            is_addition: self.is_addition || self.bytes == 0 && bytes.starts_with(b"added "),
            bytes: self.bytes.saturating_add(bytes.len()),
        }
    }
}

/// A writer that notes the answer that it writes.
#[derive(Drop)]
pub(crate) struct Answers<'a, W> {
    output: W,
    last: &'a Cell<Answer>,
}

impl<'a, W: Write> Answers<'a, W> {
    pub(crate) fn new(output: W, last: &'a Cell<Answer>) -> Answers<'a, W> {
        Answers { output, last }
    }
}

impl<W: Write> Write for Answers<'_, W> {
    ghost contents = { λ w. W.contents w.output };

    fn write(&mut self, bytes: &[u8]) -> io::Result<usize> {
        let count = self.output.write(bytes)?;
        if let Some(written) = bytes.get(..count) {
            self.last.set(self.last.get().with(written));
        }
        Ok(count)
    }

    fn flush(&mut self) -> io::Result<()> {
        self.output.flush()
    }
}
