//! A writer that passes its bytes on in blocks.
ghost use Rattle.std.specs.Prelude.{◌≡◌, ◌<◌, [], length, take};

use aout_core::{BLOCK_SIZE, Block, BufferedWrite};
use std::io;
use std::io::{ErrorKind, Write};
use std::marker::Model;

/// A device, and at most `BLOCK_SIZE` bytes that wait for it. The device is written to once a block is full and more
/// bytes come, and by a flush; bytes that wait when nobody flushes are lost. If a call of the device fails, what it
/// did not take still waits. It takes no memory.
#[derive(Drop)]
pub struct BlockWriter<W> {
    device: W,
    block: Block,
}

impl<W> Model for BlockWriter<W> {
    ghost use Rattle.command_words.specs.Blocks.{Blocked};

    ghost Value = { Blocked W };

    ghost view = { λ w. record { device = w.device; waiting = w.block } };
}

impl<W: Write> BlockWriter<W> {
    ghost use Rattle.std.specs.{Prelude.{◌≡◌, ◌≤◌, [], length, take, drop, IfOk, IfErr}, Io.KnownBytes.{Keeps, append_known}};

    /// A writer to the device in which nothing waits.
    pub fn new(device: W) -> BlockWriter<W>
        ensures device { result.device ≡ device }
        ensures waiting { result.waiting ≡ [] }
    {
        BlockWriter {
            device,
            block: Block::new(),
        }
    }

    /// Writes to the device once, and returns how many of the waiting bytes it took.
    fn send(&mut self) -> io::Result<usize>
        ensures bound { IfOk result (λ n. n ≤ length self.old.waiting) }
        ensures left { IfOk result (λ n. self.new.waiting ≡ drop n self.old.waiting) }
        ensures waiting { IfErr result (λ _. self.new.waiting ≡ self.old.waiting) }
        ensures kept { Keeps (append_known (W.contents self.old.device)
            self.old.waiting) (append_known (W.contents self.new.device) self.new.waiting) }
    {
        let n = self.device.write(self.block.waiting())?;
        self.block.pass(n);
        Ok(n)
    }
}

impl<W: Write> Write for BlockWriter<W> {
    ghost use Rattle.std.specs.{Prelude.{◌≡◌, ◌<◌, ◌-◌, ◌++◌, [], min, length, take, IfErr, Ok, OnOk}, Io.WritesAtMost};
    ghost use Rattle.std.specs.Io.KnownBytes.{Keeps, WriteAppends, append_known};
    ghost use Rattle.aout_core.specs.declared.block.TheConstants.{BLOCK_SIZE};

    ghost contents = { λ w. append_known (W.contents w.device) w.waiting };

    fn write(&mut self, buf: &[u8]) -> io::Result<usize>
        ensures bound { WritesAtMost result buf.now }
        ensures bytes { WriteAppends (append_known (W.contents self.old.device) self.old.waiting)
            (append_known (W.contents self.new.device) self.new.waiting) result buf.now }
        ensures space { length self.old.waiting < BLOCK_SIZE
            → result ≡ Ok (min (length buf.now) (BLOCK_SIZE - length self.old.waiting)) }
        ensures unsent { length self.old.waiting < BLOCK_SIZE → self.new.device ≡ self.old.device }
        ensures taken { length self.old.waiting < BLOCK_SIZE → self.new.waiting
            ≡ self.old.waiting ++ take (BLOCK_SIZE - length self.old.waiting) buf.now }
        ensures kept { IfErr result (λ _. self.new.waiting ≡ self.old.waiting) }
    {
        if self.block.waiting().len() == BLOCK_SIZE {
            self.send()?;
        }
        Ok(self.block.take_in(buf))
    }

    fn flush(&mut self) -> io::Result<()>
        ensures bytes { Keeps (append_known (W.contents self.old.device)
            self.old.waiting) (append_known (W.contents self.new.device) self.new.waiting) }
        ensures empty { OnOk result (self.new.waiting ≡ []) }
    {
        while !self.block.is_empty() {
            if self.send()? == 0 {
                return Err(io::Error::from(ErrorKind::WriteZero));
            }
        }
        self.device.flush()
    }
}

impl<W: Write> BufferedWrite for BlockWriter<W> {
    ghost waiting = { λ w. w.waiting };

    fn pass_on(&mut self) -> io::Result<()> {
        self.flush()
    }
}
