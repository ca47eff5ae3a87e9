//! Bytes on their way between a wire and those who use them.
ghost use Rattle.std.specs.Prelude.{◌≡◌, ◌≤◌, ◌-◌, slice_range, take};
ghost use Rattle.aout_core.specs.declared.block.TheConstants.{BLOCK_SIZE};

use crate::wire::{DeviceFault, Wire};
use std::io::{Read, Write};
use std::marker::Model;

/// How many bytes a block has room for.
pub const BLOCK_SIZE: usize = 512;

/// At most `BLOCK_SIZE` bytes that wait: for the device to which they are sent, or for those who use what was read. It
/// takes no memory. Contracts see the list of them.
#[derive(Drop)]
pub struct Block {
    bytes: [u8; BLOCK_SIZE],
    start: usize,
    end: usize,
}

impl Model for Block {
    ghost use Rattle.std.specs.Prelude.{ℕ, List};

    ghost Value = { List ℕ };

    ghost use Rattle.std.specs.Prelude.{◌≤◌, slice_range};
    ghost use Rattle.aout_core.specs.declared.block.TheConstants.{BLOCK_SIZE};

    ghost view = { λ b. slice_range b.bytes b.start b.end };

    ghost invariant = { λ b. (b.start ≤ b.end) × (b.end ≤ BLOCK_SIZE) };
}

/// Moves the bytes from `start` to `end` to the front, and returns where they end there.
fn bring_front(bytes: &mut [u8; BLOCK_SIZE], start: usize, end: usize) -> usize
    requires ordered { start ≤ end }
    requires within { end ≤ BLOCK_SIZE }
    ensures len { result ≡ end - start }
    ensures value { take result bytes.new ≡ slice_range bytes.old start end }
{
    if start > 0 && start < end {
        bytes.rotate_left(start);
    }
    end - start
}

impl Block {
    ghost use Rattle.std.specs.Prelude.{◌≡◌, ◌↔◌, ◌≤◌, ◌<◌, ◌-◌, ◌++◌, [], true, min, length, take, drop, IfOk, IfErr, IsErr, IsTrue};
    ghost use Rattle.std.specs.Io.KnownBytes.{Consumes, IsAtEnd, Keeps};
    ghost use Rattle.aout_core.specs.{Wires.Writes, declared.block.TheConstants.BLOCK_SIZE};

    /// A block in which nothing waits.
    pub fn new() -> Block
        ensures { result ≡ [] }
    {
        Block {
            bytes: [0; BLOCK_SIZE],
            start: 0,
            end: 0,
        }
    }

    /// The bytes that wait, the first one first.
    pub fn waiting(&self) -> &[u8]
        ensures value { result.now ≡ self.now }
        ensures bound { length self.now ≤ BLOCK_SIZE }
    {
        &self.bytes[self.start..self.end]
    }

    /// Whether nothing waits.
    pub fn is_empty(&self) -> bool
        ensures { IsTrue result ↔ (self.now ≡ []) }
    {
        self.start == self.end
    }

    /// Appends as many of the bytes as there is room for to those that wait, and returns how many. An empty block has
    /// room for `BLOCK_SIZE`.
    pub fn take_in(&mut self, bytes: &[u8]) -> usize
        ensures count { result ≡ min (length bytes.now) (BLOCK_SIZE - length self.old) }
        ensures value { self.new ≡ self.old ++ take result bytes.now }
    {
        let waiting = bring_front(&mut self.bytes, self.start, self.end);
        let n = bytes.len().min(BLOCK_SIZE - waiting);
        let end = waiting + n;
        self.bytes[waiting..end].copy_from_slice(&bytes[..n]);
        self.start = 0;
        self.end = end;
        n
    }

    /// Drops the first `n` bytes that wait.
    pub fn pass(&mut self, n: usize)
        requires { n ≤ length self.old }
        ensures { self.new ≡ drop n self.old }
    {
        self.start += n;
    }

    /// Moves the first bytes that wait to the beginning of `out`, as many as both have, and returns how many. (own
    /// choice)
    pub(crate) fn give_out(&mut self, out: &mut [u8]) -> usize
        ensures count { result ≡ min (length self.old) (length out.old) }
        ensures value { out.new ≡ take result self.old ++ drop result out.old }
        ensures left { self.new ≡ drop result self.old }
    {
        let n = out.len().min(self.end - self.start);
        out[..n].copy_from_slice(&self.waiting()[..n]);
        self.pass(n);
        n
    }

    /// Fills an empty block with what one read of the wire gives, at most `BLOCK_SIZE` bytes; none come only at the end
    /// of the device.
    pub fn read_some<R: Read>(&mut self, wire: &mut Wire<R>) -> Result<(), DeviceFault>
        requires { self.old ≡ [] }
        ensures fault { IsErr result ↔ IsTrue wire.new.has_failed }
        ensures latched { IsTrue wire.old.has_failed → (wire.new ≡ wire.old) }
        ensures bytes { IfOk result (λ _.
            Consumes (R.remaining wire.old.device) (R.remaining wire.new.device) self.new) }
        ensures end { IfOk result (λ _. self.new ≡ [] → IsAtEnd (R.remaining wire.new.device)) }
        ensures kept { IfErr result (λ _.
            Keeps (R.remaining wire.old.device) (R.remaining wire.new.device)) }
        ensures empty { IfErr result (λ _. self.new ≡ []) }
    {
        self.start = 0;
        self.end = 0;
        self.end = wire.read(&mut self.bytes)?;
        Ok(())
    }

    /// Fills an empty block with the next `n` bytes, or with `BLOCK_SIZE` if that is less; fewer come only at
    /// the end of the device.
    pub(crate) fn fill<R: Read>(&mut self, n: usize, wire: &mut Wire<R>) -> Result<(), DeviceFault>
        requires { self.old ≡ [] }
        ensures fault { IsErr result ↔ IsTrue wire.new.has_failed }
        ensures latched { IsTrue wire.old.has_failed → (wire.new ≡ wire.old) }
        ensures bytes { IfOk result (λ _.
            Consumes (R.remaining wire.old.device) (R.remaining wire.new.device) self.new) }
        ensures bound { IfOk result (λ _. length self.new ≤ min n BLOCK_SIZE) }
        ensures end { IfOk result (λ _.
            length self.new < min n BLOCK_SIZE → IsAtEnd (R.remaining wire.new.device)) }
        ensures empty { IfErr result (λ _. self.new ≡ []) }
    {
        let most = n.min(BLOCK_SIZE);
        self.start = 0;
        self.end = 0;
        self.end = wire.fill(&mut self.bytes[..most])?;
        Ok(())
    }

    /// Sends what waits, so that nothing does. On a fault a prefix of it went out, and all of it still waits. (own
    /// choice)
    pub fn send<W: Write>(&mut self, wire: &mut Wire<W>) -> Result<(), DeviceFault>
        ensures written { Writes W.contents result wire.old wire.new self.old }
        ensures empty { IfOk result (λ _. self.new ≡ []) }
        ensures kept { IfErr result (λ _. self.new ≡ self.old) }
    {
        wire.put(self.waiting())?;
        self.start = self.end;
        Ok(())
    }
}
