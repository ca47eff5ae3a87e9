//! Files by their paths.
ghost use Rattle.std.specs.Prelude.{◌≡◌, ◌↔◌, Err, IfSome, IsTrue};
ghost use Rattle.aout_core.specs.{declared.file.ReadFault.TheVariants.Device, Refusals.device_fault, Reading.{IsReadOf, LeavesAfter}};
ghost use Rattle.v7tools.specs.Loads.{read_of, IsAtPath};

use crate::fault::CliFault;
use aout_core::{File, ReadFault, Wire, read_file};
use std::alloc::Global;
use std::io::Read;

/// Reads the file at a path, as `read_file` does, and gives the path back with it.
///
/// Errors: `BadFile`, 3, with the path and the fault of the reader; `Memory`, 9, if memory runs out.
pub fn load<R: Read>(
    alloc: Global,
    path: String,
    wire: &mut Wire<R>,
) -> Result<(String, File), CliFault>
    ensures path { IsAtPath path result }
    ensures device { (read_of result ≡ Err (Device device_fault)) ↔ IsTrue wire.new.has_failed }
    ensures latched { IsTrue wire.old.has_failed → (wire.new ≡ wire.old) }
    ensures decodes { IfSome (R.remaining wire.old.device) (λ bytes. IsReadOf (read_of result) bytes
        × LeavesAfter (read_of result) bytes (R.remaining wire.new.device)) }
{
    match read_file(alloc, wire) {
        Ok(file) => Ok((path, file)),
        Err(ReadFault::Memory(refused)) => Err(CliFault::Memory(refused)),
        Err(fault) => Err(CliFault::BadFile(path, fault)),
    }
}
