//! The standard error of any runtime, as a writer of text.
use std::io::{ErrorKind, Write};
use std::{io, str};

/// Bytes that are not UTF-8 are an error here, since a runtime's standard error takes text alone.
#[derive(Drop)]
pub struct StandardError<'a, H> {
    rt: &'a H,
}

impl<'a, H: Eprint> StandardError<'a, H> {
    pub fn new(rt: &'a H) -> StandardError<'a, H> {
        StandardError { rt }
    }
}

impl<H: Eprint> Write for StandardError<'_, H> {
    fn write(&mut self, bytes: &[u8]) -> io::Result<usize> {
        match str::from_utf8(bytes) {
            Ok(text) => {
                self.rt.eprint(text)?;
                Ok(bytes.len())
            }
            Err(_) => Err(io::Error::from(ErrorKind::InvalidData)),
        }
    }

    fn flush(&mut self) -> io::Result<()> {
        Ok(())
    }
}
