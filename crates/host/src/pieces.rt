//! Files that are written in large pieces, which takes fewer calls of the system.
ghost use Rattle.std.specs.Prelude.{◌≡◌, ◌≤◌, slice_range};
ghost use Rattle.host.specs.declared.pieces.TheConstants.{PIECE_SIZE};

use aout_core::BufferedWrite;
use std::fs::OpenFile;
use std::io;
use std::io::{ErrorKind, Write};
use std::marker::Model;

/// How many bytes a piece has room for.
const PIECE_SIZE: usize = 4_096;

/// A file, and the bytes that were taken for it and not written yet. It takes no memory.
#[derive(Drop)]
pub(crate) struct PieceWriter<F> {
    file: F,
    /// Whether the file took the place of another one, which may have been the only copy: then a flush waits for the disk.
    replaces: bool,
    bytes: [u8; PIECE_SIZE],
    start: usize,
    end: usize,
}

impl<F> Model for PieceWriter<F> {
    ghost use Rattle.std.specs.Prelude.{◌≤◌, ◌-◌, slice_range};
    ghost use Rattle.host.specs.{Pieces.Held, declared.pieces.TheConstants.PIECE_SIZE};

    ghost Value = { Held F };

    ghost view = { λ p. record { file = p.file; held = slice_range p.bytes p.start p.end; space = PIECE_SIZE - p.end } };

    ghost invariant = { λ p. (p.start ≤ p.end) × (p.end ≤ PIECE_SIZE) };
}

/// The bytes between two places of a piece.
fn part(bytes: &[u8; PIECE_SIZE], start: usize, end: usize) -> &[u8]
    requires ordered { start ≤ end }
    requires within { end ≤ PIECE_SIZE }
    ensures { result.now ≡ slice_range bytes.now start end }
{
    &bytes[start..end]
}

impl<F> PieceWriter<F> {
    ghost use Rattle.std.specs.Prelude.{◌≡◌, []};

    /// A writer to the file, of which nothing is held.
    pub(crate) fn new(file: F, replaces: bool) -> PieceWriter<F>
        ensures { result ≡ record { file = file; held = []; space = PIECE_SIZE } }
    {
        PieceWriter {
            file,
            replaces,
            bytes: [0; PIECE_SIZE],
            start: 0,
            end: 0,
        }
    }

    /// The file back. What is held is lost.
    pub(crate) fn into_file(self) -> F
        ensures { result ≡ self.file }
    {
        let PieceWriter { file, .. } = self;
        file
    }

    /// The bytes that are held.
    fn held(&self) -> &[u8]
        ensures { result.now ≡ self.now.held }
    {
        part(&self.bytes, self.start, self.end)
    }
}

impl<F: Write> PieceWriter<F> {
    ghost use Rattle.std.specs.{Prelude.{◌≡◌, ◌≤◌, ◌-◌, ◌++◌, [], min, length, take, drop, IfOk, OnOk}, Io.KnownBytes.Keeps};
    ghost use Rattle.host.specs.Pieces.{written};

    /// Writes to the file once, and returns how many of the bytes that are held it took.
    fn send(&mut self) -> io::Result<usize>
        ensures kept { Keeps (written F.contents self.old) (written F.contents self.new) }
        ensures left { IfOk result (λ n. self.new.held ≡ drop n self.old.held) }
    {
        let n = self.file.write(part(&self.bytes, self.start, self.end))?;
        self.start += n;
        Ok(n)
    }

    /// Writes all that is held.
    fn send_all(&mut self) -> io::Result<()>
        ensures kept { Keeps (written F.contents self.old) (written F.contents self.new) }
        ensures empty { OnOk result (self.new.held ≡ []) }
    {
        while !self.held().is_empty() {
            if self.send()? == 0 {
                return Err(io::Error::from(ErrorKind::WriteZero));
            }
        }
        self.start = 0;
        self.end = 0;
        Ok(())
    }

    /// Takes as many of the bytes as there is room for.
    fn take_in(&mut self, bytes: &[u8]) -> usize
        ensures bound { result ≤ length bytes.now }
        ensures value { self.new ≡ record { file = self.old.file; held = self.old.held ++ take result bytes.now; space = self.old.space - result } }
        ensures all { result ≡ min (length bytes.now) self.old.space }
    {
        let n = bytes.len().min(PIECE_SIZE - self.end);
        let end = self.end + n;
        self.bytes[self.end..end].copy_from_slice(&bytes[..n]);
        self.end = end;
        n
    }
}

impl<F: Write + OpenFile> Write for PieceWriter<F> {
    ghost use Rattle.std.specs.{Prelude.{◌≡◌, ◌<◌, [], min, length, Ok, OnOk}, Io.WritesAtMost, Io.KnownBytes.{Keeps, WriteAppends}};
    ghost use Rattle.host.specs.Pieces.{written};

    ghost contents = { written F.contents };

    fn write(&mut self, buf: &[u8]) -> io::Result<usize>
        ensures bound { WritesAtMost result buf.now }
        ensures bytes { WriteAppends (written F.contents self.old) (written F.contents self.new) result buf.now }
        ensures space { 0 < self.old.space → result ≡ Ok (min (length buf.now) self.old.space) }
        ensures unsent { 0 < self.old.space → self.new.file ≡ self.old.file }
    {
        if self.end == PIECE_SIZE {
            self.send_all()?;
        }
        Ok(self.take_in(buf))
    }

    fn flush(&mut self) -> io::Result<()>
        ensures bytes { Keeps (written F.contents self.old) (written F.contents self.new) }
        ensures empty { OnOk result (self.new.held ≡ []) }
    {
        self.send_all()?;
        self.file.flush()?;
        if self.replaces {
            self.file.sync_data()?;
        }
        Ok(())
    }
}

impl<F: Write + OpenFile> BufferedWrite for PieceWriter<F> {
    ghost waiting = { λ p. p.held };

    fn pass_on(&mut self) -> io::Result<()> {
        self.flush()
    }
}
