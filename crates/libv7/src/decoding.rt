//! The file and the object that bytes begin with.
ghost use Rattle.std.specs.Prelude.{◌≡◌, ◌≢◌, Ok, Err, IfOk, IfErr};
ghost use Rattle.aout_core.specs.{Refusals.refused, Decoding.decode};
ghost use Rattle.libv7.specs.declared.cause.Cause.TheVariants.{Memory};
ghost use Rattle.libv7.specs.{FileAnswers.{file_in, object_in, object_of}, MemoryWanted.HasBody};

use crate::cause::Cause;
use aout_core::{File, Object, decode_file};
use std::alloc::Global;

/// The file that the bytes begin with. Memory is requested only for what a whole file has after its header.
#[tactic(auto, using(crate::proofs::FileLemmas::has_body))]
pub(crate) fn first_file(alloc: Global, bytes: &[u8]) -> Result<File, Cause>
    ensures file { IfOk result (λ file. decode bytes.now ≡ Ok file) }
    ensures err { IfErr result (λ cause. cause ≢ Memory refused → file_in bytes.now ≡ Err cause) }
    ensures memory { IfErr result (λ cause. cause ≡ Memory refused → HasBody bytes.now) }
{
    match decode_file(alloc, bytes)? {
        Ok(file) => Ok(file),
        Err(fault) => Err(Cause::BadFile(fault)),
    }
}

pub(crate) fn object_of(file: File) -> Result<Object, Cause>
    ensures ok { IfOk result (λ object. object_of file ≡ Ok object) }
    ensures err { IfErr result (λ cause. object_of file ≡ Err cause) }
    ensures memory { IfErr result (λ cause. cause ≢ Memory refused) }
{
    match Object::from_file(file) {
        Ok(object) => Ok(object),
        Err((_, fault)) => Err(Cause::BadObject(fault)),
    }
}

/// The object that the bytes begin with.
#[tactic(auto, using(crate::proofs::FileLemmas::object_read))]
pub(crate) fn first_object(alloc: Global, bytes: &[u8]) -> Result<Object, Cause>
    ensures object { IfOk result (λ object. object_in bytes.now ≡ Ok object) }
    ensures err { IfErr result (λ cause. cause ≢ Memory refused → object_in bytes.now ≡ Err cause) }
    ensures memory { IfErr result (λ cause. cause ≡ Memory refused → HasBody bytes.now) }
{
    object_of(first_file(alloc, bytes)?)
}
