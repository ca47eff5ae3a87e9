//! Bytes of a wire, one by one, that are read in blocks.
ghost use Rattle.std.specs.Prelude.{◌<◌, length};
ghost use Rattle.aout_core.specs.declared.block.TheConstants.{BLOCK_SIZE};

use aout_core::{Block, DeviceFault, Wire};
use std::io::Read;

/// A wire, and the bytes that were read from it and not taken yet. They are fewer than a block, since a block is read
/// only to take a byte of it.
#[derive(Drop)]
pub(crate) struct BlockReader<R> {
    wire: Wire<R>,
    held: Block,
    ghost ahead: { length held < BLOCK_SIZE },
}

impl<R: Read> BlockReader<R> {
    ghost use Rattle.std.specs.Prelude.{◌≡◌, ◌↔◌, [], ◌∷◌, IfErr, IfNone, IfOk, IfSome, IsErr, IsTrue};
    ghost use Rattle.std.specs.Io.KnownBytes.{Consumes, IsAtEnd, Keeps};
    ghost use Rattle.command_words.specs.ScriptAnswers.{unread};

    /// A reader of which no byte was taken.
    pub(crate) fn new(wire: Wire<R>) -> BlockReader<R>
        ensures wire { result.wire ≡ wire }
        ensures held { result.held ≡ [] }
    {
        BlockReader {
            wire,
            held: Block::new(),
        }
    }

    /// Whether the latch of the wire is on.
    pub(crate) fn failed(&self) -> bool
        ensures { result ≡ self.now.wire.has_failed }
    {
        self.wire.failed()
    }

    /// Takes the next byte; the wire is read only if no byte is held.
    pub(crate) fn next_byte(&mut self) -> Result<Option<u8>, DeviceFault>
        ensures fault { IsErr result ↔ IsTrue self.new.wire.has_failed }
        ensures latched { IsTrue self.old.wire.has_failed → (self.new ≡ self.old) }
        ensures byte { IfOk result (λ o. IfSome o (λ b. Consumes (unread R.remaining self.old.held
            self.old.wire) (unread R.remaining self.new.held self.new.wire) (b ∷ []))) }
        ensures untouched { (self.old.held ≡ [] → ⊥) → self.new.wire ≡ self.old.wire }
        ensures held { IfOk result (λ o.
            IfSome o (λ b. (self.old.held ≡ [] → ⊥) → self.old.held ≡ b ∷ self.new.held)) }
        ensures end { IfOk result (λ o. IfNone o (Consumes (unread R.remaining self.old.held
            self.old.wire) (unread R.remaining self.new.held self.new.wire) []
            × IsAtEnd (unread R.remaining self.new.held self.new.wire))) }
        ensures kept { IfErr result (λ _. Keeps (unread R.remaining self.old.held
            self.old.wire) (unread R.remaining self.new.held self.new.wire)) }
    {
        self.wire.working()?;
        if self.held.is_empty() {
            self.held.read_some(&mut self.wire)?;
        }
        let Some(&byte) = self.held.waiting().first() else {
            return Ok(None);
        };
        self.held.pass(1);
        Ok(Some(byte))
    }
}
