//! Writing a file.
ghost use Rattle.std.specs.Prelude.{◌≡◌, ◌++◌, ◌↔◌, false, IsErr, IsTrue};
ghost use Rattle.aout_core.specs.{Encoding.encoding, Wires.Writes, internal.Blocks.PutsBut, internal.Fronts.{to_relocation, to_table}};

use crate::file::File;
use crate::item::{put_both, put_items};
use crate::outgoing::Outgoing;
use crate::wire::{DeviceFault, Wire};
use std::io::Write;

/// Puts the header, text and data.
fn put_words<W: Write>(
    file: &File,
    outgoing: &mut Outgoing,
    wire: &mut Wire<W>,
) -> Result<(), DeviceFault>
    requires { wire.old.has_failed ≡ false }
    ensures fault { IsErr result ↔ IsTrue wire.new.has_failed }
    ensures bytes { PutsBut result (W.contents wire.old.device) (W.contents wire.new.device)
        outgoing.new (outgoing.old ++ to_relocation file.now) }
{
    outgoing.put(&file.header().to_bytes(), wire)?;
    put_both(file.text_words(), file.data_words(), outgoing, wire)
}

/// Puts these and the relocation words.
fn put_relocated<W: Write>(
    file: &File,
    outgoing: &mut Outgoing,
    wire: &mut Wire<W>,
) -> Result<(), DeviceFault>
    requires { wire.old.has_failed ≡ false }
    ensures fault { IsErr result ↔ IsTrue wire.new.has_failed }
    ensures bytes { PutsBut result (W.contents wire.old.device) (W.contents wire.new.device)
        outgoing.new (outgoing.old ++ to_table file.now) }
{
    put_words(file, outgoing, wire)?;
    put_both(file.text_reloc(), file.data_reloc(), outgoing, wire)
}

/// Puts all parts.
fn put_file<W: Write>(
    file: &File,
    outgoing: &mut Outgoing,
    wire: &mut Wire<W>,
) -> Result<(), DeviceFault>
    requires { wire.old.has_failed ≡ false }
    ensures fault { IsErr result ↔ IsTrue wire.new.has_failed }
    ensures bytes { PutsBut result (W.contents wire.old.device) (W.contents wire.new.device)
        outgoing.new (outgoing.old ++ encoding file.now) }
{
    put_relocated(file, outgoing, wire)?;
    put_items(file.symbols(), outgoing, wire)
}

/// Writes the file: header, text, data, relocation and symbols, in that order, names padded with NULs. On a fault a
/// prefix of the file went out. (a.out(5))
pub fn write_file<W: Write>(file: &File, wire: &mut Wire<W>) -> Result<(), DeviceFault>
    ensures { Writes W.contents result wire.old wire.new (encoding file.now) }
{
    wire.working()?;
    let mut outgoing = Outgoing::new();
    put_file(file, &mut outgoing, wire)?;
    outgoing.finish(wire)
}
