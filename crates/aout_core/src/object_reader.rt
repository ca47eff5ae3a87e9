//! Reading an object.
ghost use Rattle.std.specs.Prelude.{◌≡◌, ◌↔◌, Err, IfSome, IsTrue};
ghost use Rattle.aout_core.specs.{Objects.IsObjectRead, Refusals.device_fault};

use crate::file::ReadFault;
use crate::object::{Object, ObjectFault};
use crate::reader::read_file;
use crate::wire::Wire;
use std::alloc::Global;
use std::io::Read;
use thiserror::Error;

/// Why no object was read.
#[derive(Clone, Copy, Debug, PartialEq, Eq, Error)]
pub enum NoObject {
    /// 1: no file was read.
    #[error("{0}")]
    NotRead(ReadFault),
    /// 2: the file is not an object.
    #[error("{0}")]
    NotFit(ObjectFault),
}

/// Reads one object, and leaves what follows its symbols. (a.out(5); the refusals: own choice)
///
/// Errors, the first that applies: `NotRead`, 1, with the fault of `read_file`, and then `NotFit`, 2, with that of
/// `Object::from_file`.
pub fn read_object<R: Read>(alloc: Global, wire: &mut Wire<R>) -> Result<Object, NoObject>
    ensures device { (result ≡ Err (NoObject.NotRead (ReadFault.Device device_fault)))
        ↔ IsTrue wire.new.has_failed }
    ensures latched { IsTrue wire.old.has_failed → (wire.new ≡ wire.old) }
    ensures reads { IfSome (R.remaining wire.old.device) (λ bytes.
        IsObjectRead result bytes (R.remaining wire.new.device)) }
{
    let file = match read_file(alloc, wire) {
        Ok(file) => file,
        Err(fault) => return Err(NoObject::NotRead(fault)),
    };
    match Object::from_file(file) {
        Ok(object) => Ok(object),
        Err((_, fault)) => Err(NoObject::NotFit(fault)),
    }
}
