//! The path of a file, before or above its lines.
ghost use Rattle.std.specs.Prelude.{◌≡◌, ◌++◌, [], false, if◌then◌else◌};
ghost use Rattle.aout_core.specs.Wires.{Writes};

use aout_core::{DeviceFault, Wire};
use std::io::Write;

/// Writes a path and the mark after it, or nothing.
pub(crate) fn put_heading<W: Write>(
    is_wanted: bool,
    path: &str,
    mark: &[u8],
    out: &mut Wire<W>,
) -> Result<(), DeviceFault>
    requires { out.old.has_failed ≡ false }
    ensures { Writes W.contents result out.old out.new
        (if is_wanted then path.now ++ mark.now else []) }
{
    if !is_wanted {
        return Ok(());
    }
    out.put(path.as_bytes())?;
    out.put(mark)
}
