//! The objects of a link, from their files.
ghost use Rattle.std.specs.Prelude.{◌≡◌, true, IfErr, IfOk, Ok, is_err, map, string_bytes};
ghost use Rattle.aout_core.specs.Decoding.{decode};
ghost use Rattle.link_out.specs.Inputs.{object_in};
ghost use Rattle.host.specs.Answers.{Stops};
ghost use Rattle.v7_explain.specs.{Files.{GivesOr, HasStatus, nothing_said}, Runs.{IsEach, Takes, status_taken}};

use crate::explaining::{MOST_BYTES, join, nothing_said};
use crate::program::NAME;
use crate::source::put_text_line;
use aout_core::{Object, decode_file};
use host::{Answer, Fault, FileSystem, error_answer, read_whole};
use link_maps::Objects;
use std::alloc::{AllocError, Global};
use std::fmt::Display;
use texts::Text;

/// The fault that the bytes at a path are not an object.
fn no_object<D: Display + Drop>(alloc: Global, path: &str, fault: D) -> Fault
    ensures { Stops true 1 result }
{
    let mut line = Text::new(alloc);
    put_text_line(&mut line, path, fault);
    match error_answer(alloc, line, 1) {
        Ok(answer) => Fault::Answered(answer),
        Err(error) => Fault::from(error),
    }
}

/// The object in the bytes of a file, or why there is none.
fn object_in(alloc: Global, path: &str, bytes: &[u8]) -> Result<Object, Fault>
    ensures ok { IfOk result (λ object. object_in (decode bytes.now) ≡ Ok object) }
    ensures err { IfErr result (λ fault. Stops (is_err (object_in (decode bytes.now))) 1 fault) }
{
    let file = match decode_file(alloc, bytes)? {
        Ok(file) => file,
        Err(fault) => return Err(no_object(alloc, path, fault)),
    };
    match Object::from_file(file) {
        Ok(object) => Ok(object),
        Err((_, fault)) => Err(no_object(alloc, path, fault)),
    }
}

/// Takes the object in the bytes at a path, or says why there is none.
#[tactic(auto, using(crate::proofs::EachLemmas::by_taken))]
fn take(alloc: Global, objects: &mut Objects, path: &str, bytes: &[u8]) -> Result<Answer, Fault>
    ensures { GivesOr (HasStatus (status_taken bytes.now)) result }
{
    match object_in(alloc, path, bytes) {
        Ok(object) => {
            let label = String::from_str(alloc, path)?;
            objects.take(alloc, label, object)?;
            Ok(nothing_said(alloc))
        }
        Err(Fault::Answered(answer)) => Ok(answer),
        Err(Fault::Memory(refused)) => Err(Fault::Memory(refused)),
    }
}

/// Takes the object at a path, or says why there is none.
fn take_at<O: FileSystem>(
    alloc: Global,
    file_system: &mut O,
    objects: &mut Objects,
    path: &str,
) -> Result<Answer, Fault>
    ensures { Takes path.now (O.history file_system.old) (O.history file_system.new) result }
{
    match read_whole(alloc, file_system, NAME, path, MOST_BYTES) {
        Ok(bytes) => take(alloc, objects, path, &bytes),
        Err(Fault::Answered(answer)) => Ok(answer),
        Err(Fault::Memory(refused)) => Err(Fault::Memory(refused)),
    }
}

/// Takes the objects at these paths in order. The answer has a line for each file that is not an object.
pub(crate) fn take_objects<O: FileSystem>(
    alloc: Global,
    file_system: &mut O,
    objects: &mut Objects,
    paths: &[String],
) -> Result<Answer, Fault>
    ensures { IsEach Takes (map string_bytes paths.now) nothing_said
        (O.history file_system.old) (O.history file_system.new) result }
{
    let mut said = nothing_said(alloc);
    for path in paths {
        let more = take_at(alloc, file_system, objects, path.as_str())?;
        join(&mut said, &more)?;
    }
    Ok(said)
}
