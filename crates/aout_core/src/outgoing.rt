//! Bytes on their way to a wire.
ghost use Rattle.std.specs.Prelude.{◌≡◌, ◌↔◌, ◌≤◌, false};

use crate::block::{BLOCK_SIZE, Block};
use crate::wire::{DeviceFault, Wire};
use std::io::Write;
use std::marker::Model;

/// Bytes that wait until a block is full. Contracts see the list of them.
#[derive(Drop)]
pub(crate) struct Outgoing {
    block: Block,
}

impl Model for Outgoing {
    ghost use Rattle.std.specs.Prelude.{ℕ, List};

    ghost Value = { List ℕ };

    ghost use Rattle.std.specs.Prelude.{◌≤◌, length};
    ghost use Rattle.aout_core.specs.declared.block.TheConstants.{BLOCK_SIZE};

    ghost view = { λ a. a.block };

    ghost invariant = { λ a. length a.block ≤ BLOCK_SIZE };
}

impl Outgoing {
    ghost use Rattle.std.specs.Prelude.{◌≡◌, ◌↔◌, ◌≤◌, ◌++◌, [], false, length, IsErr, IsTrue, OnOk};
    ghost use Rattle.aout_core.specs.{declared.block.TheConstants.BLOCK_SIZE, Wires.Writes, internal.Blocks.PutsBut};

    /// Nothing waits.
    pub(crate) fn new() -> Outgoing
        ensures { result ≡ [] }
    {
        Outgoing {
            block: Block::new(),
        }
    }

    /// Sends a block that is full.
    fn send<W: Write>(&mut self, wire: &mut Wire<W>) -> Result<(), DeviceFault>
        requires { length self.old ≡ BLOCK_SIZE }
        ensures written { Writes W.contents result wire.old wire.new self.old }
        ensures empty { OnOk result (self.new ≡ []) }
    {
        self.block.send(wire)
    }

    /// Sends what still waits.
    pub(crate) fn finish<W: Write>(self, wire: &mut Wire<W>) -> Result<(), DeviceFault>
        ensures { Writes W.contents result wire.old wire.new self }
    {
        let Outgoing { mut block } = self;
        block.send(wire)
    }

    /// Appends bytes to those that wait; a block that is full goes out once there are more.
    pub(crate) fn put<W: Write>(
        &mut self,
        bytes: &[u8],
        wire: &mut Wire<W>,
    ) -> Result<(), DeviceFault>
        requires works { wire.old.has_failed ≡ false }
        requires short { length bytes.now ≤ BLOCK_SIZE }
        ensures fault { IsErr result ↔ IsTrue wire.new.has_failed }
        ensures bytes { PutsBut result (W.contents wire.old.device) (W.contents wire.new.device)
            self.new (self.old ++ bytes.now) }
    {
        let n = self.block.take_in(bytes);
        if n < bytes.len() {
            self.send(wire)?;
            self.block.take_in(&bytes[n..]);
        }
        Ok(())
    }
}
