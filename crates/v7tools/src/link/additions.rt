//! The addition of the file at a path to a session.
ghost use Rattle.std.specs.Prelude.{◌≡◌, ◌↔◌, Err, IfErr, IsTrue};
ghost use Rattle.aout_core.specs.{declared.file.ReadFault.TheVariants.Device, Refusals.device_fault};
ghost use Rattle.v7tools.specs.{declared.fault.CliFault.TheVariants.BadFile, internal.InputParts.{IsCheckOf, IsPossible}};
ghost use Rattle.v7tools.specs.{LinkAnswers.said_by, internal.StepParts.IsAddition};

use crate::fault::CliFault;
use crate::files::loading::load;
use aout_core::{File, Object, Wire};
use link_session::Session;
use std::alloc::Global;
use std::io::Read;

/// Checks that the file at a path is an object, and gives the path back with it.
fn object_at(path: String, file: File) -> Result<(String, Object), CliFault>
    ensures { IsCheckOf path file result }
{
    match Object::from_file(file) {
        Err((_, fault)) => Err(CliFault::BadObject(path, fault)),
        Ok(object) => Ok((path, object)),
    }
}

/// Reads the file at a path, checks it and adds it to the session, which a fault leaves as it was.
pub(crate) fn add_file<R: Read>(
    alloc: Global,
    session: &mut Session,
    path: String,
    wire: &mut Wire<R>,
) -> Result<(), CliFault>
    ensures device { (result ≡ Err (BadFile path (Device device_fault))) ↔ IsTrue wire.new.has_failed }
    ensures latched { IsTrue wire.old.has_failed → (wire.new ≡ wire.old) }
    ensures faults { IfErr result (λ fault. IsPossible (said_by fault)) }
    ensures value { IsAddition (R.remaining wire.old.device) session.old session.new path result }
{
    let (path, file) = load(alloc, path, wire)?;
    let (path, object) = object_at(path, file)?;
    Ok(session.add(path, object)?)
}
