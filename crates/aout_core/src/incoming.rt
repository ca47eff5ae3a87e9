//! Bytes on their way from a wire.
ghost use Rattle.std.specs.Prelude.{◌≡◌, ◌↔◌, ◌≤◌, false};
ghost use Rattle.aout_core.specs.Refusals.{device_fault};

use crate::block::{BLOCK_SIZE, Block};
use crate::file::ReadFault;
use crate::wire::Wire;
use std::io::Read;
use std::marker::Model;

/// The bytes of a file after its header, read in blocks, and never more of them than are missing. Contracts see
/// those that were read and not taken, and how many were not read.
#[derive(Drop)]
pub(crate) struct Incoming {
    block: Block,
    missing: usize,
}

impl Model for Incoming {
    ghost use Rattle.aout_core.specs.internal.Blocks.{Awaited};

    ghost Value = { Awaited };

    ghost view = { λ a. record { waiting = a.block; missing = a.missing } };
}

impl Incoming {
    ghost use Rattle.std.specs.Prelude.{◌≡◌, ◌↔◌, ◌≤◌, [], false, drop, length, IfOk, IfErr, IsTrue, Err};
    ghost use Rattle.aout_core.specs.{declared.block.TheConstants.BLOCK_SIZE, internal.Blocks.{awaited, EndsBefore, Refills, Takes}};
    ghost use Rattle.aout_core.specs.internal.Items.{EndsAwaiting};

    /// Nothing was read yet.
    pub(crate) fn new(missing: usize) -> Incoming
        ensures { result ≡ record { waiting = []; missing = missing } }
    {
        Incoming {
            block: Block::new(),
            missing,
        }
    }

    /// The bytes that were read and not taken.
    pub(crate) fn waiting(&self) -> &[u8]
        ensures { result.now ≡ self.now.waiting }
    {
        self.block.waiting()
    }

    /// Takes the first `n` bytes that were read.
    pub(crate) fn pass(&mut self, n: usize)
        requires { n ≤ length self.old.waiting }
        ensures { self.new
            ≡ record { waiting = drop n self.old.waiting; missing = self.old.missing } }
    {
        self.block.pass(n);
    }

    /// Reads the next block, or what is missing if that is less.
    fn refill<R: Read>(&mut self, wire: &mut Wire<R>) -> Result<(), ReadFault>
        requires works { wire.old.has_failed ≡ false }
        requires empty { self.old.waiting ≡ [] }
        ensures device { (result ≡ Err (ReadFault.Device device_fault)) ↔ IsTrue wire.new.has_failed }
        ensures value { IfOk result (λ _. Refills BLOCK_SIZE self.old.missing
            (R.remaining wire.old.device) (R.remaining wire.new.device) self.new) }
        ensures end { IfErr result (λ fault. EndsBefore fault
            (R.remaining wire.old.device) (R.remaining wire.new.device) self.old.missing) }
    {
        self.block.fill(self.missing, wire)?;
        let n = self.block.waiting().len();
        if n < self.missing.min(BLOCK_SIZE) {
            return Err(ReadFault::Truncated);
        }
        self.missing -= n;
        Ok(())
    }

    /// Fills `out` with the next bytes.
    pub(crate) fn take<R: Read>(
        &mut self,
        out: &mut [u8],
        wire: &mut Wire<R>,
    ) -> Result<(), ReadFault>
        requires works { wire.old.has_failed ≡ false }
        requires short { length out.old ≤ BLOCK_SIZE }
        requires within { length out.old ≤ awaited self.old }
        ensures device { (result ≡ Err (ReadFault.Device device_fault)) ↔ IsTrue wire.new.has_failed }
        ensures value { IfOk result (λ _. Takes self.old (R.remaining wire.old.device) self.new
            (R.remaining wire.new.device) out.new) }
        ensures end { IfErr result (λ fault. EndsAwaiting fault self.old
            (R.remaining wire.old.device) (R.remaining wire.new.device)) }
    {
        let n = self.block.give_out(out);
        if n < out.len() {
            self.refill(wire)?;
            self.block.give_out(&mut out[n..]);
        }
        Ok(())
    }
}
