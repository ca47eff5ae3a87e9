//! The files of a program and of objects: read one after another, and taken for what they are to be.
ghost use Rattle.std.specs.Prelude.{◌≡◌, ◌++◌, Ok, false, map, not, string_bytes, is_err, option_map, IfErr, IfOk, OnOk};
ghost use Rattle.aout_core.specs.Decoding.{decode};
ghost use Rattle.link_out.specs.Inputs.{object_in};
ghost use Rattle.host.specs.Answers.{Stops, is_none};
ghost use Rattle.v7_origin.specs.Runs.{AreFoundIn, Each, EndsFor, IsProgram, ReadsFor, Takes, any_refused, are_refused, is_no_program, is_taken, no_program, taken};
ghost use Rattle.v7_origin.specs.internal.Lists.{after};

use crate::program::NAME;
use aout_core::{File, NoObject, Object, decode_file};
use host::{Fault, FileSystem, Folders, Path, Walked, fault_at, read_front, read_whole, walk_all};
use std::alloc::{AllocError, Global};
use std::fmt::Display;
use std::marker::Model;
use texts::Text;

/// The most bytes of a file that is read. Others may follow the parts of an a.out file.
const MOST_BYTES: u32 = 16_777_216;

/// The most bytes of a file in a folder that are read: an object has no more.
const MOST_FRONT: u64 = 327_690;

/// A file that was read.
#[derive(Drop)]
pub(crate) struct Source {
    pub(crate) path: String,
    pub(crate) bytes: Vec<u8>,
}

impl Model for Source {
    ghost use Rattle.std.specs.Prelude.{string_bytes};
    ghost use Rattle.v7_origin.specs.Whole as spec;

    ghost Value = { spec.Source };

    ghost view = { λ s. record { path = string_bytes s.path; bytes = s.bytes.items } };
}

/// The object that bytes are, or why they are none.
pub(crate) fn object_in(alloc: Global, bytes: &[u8]) -> Result<Result<Object, NoObject>, AllocError>
    ensures ok { IfOk result (λ r. IfOk r (λ object. object_in (decode bytes.now) ≡ Ok object)) }
    ensures refused { IfOk result (λ r. is_err r ≡ is_err (object_in (decode bytes.now))) }
{
    Ok(match decode_file(alloc, bytes)? {
        Ok(file) => Object::from_file(file).map_err(|(_, fault)| NoObject::NotFit(fault)),
        Err(fault) => Err(NoObject::NotRead(fault)),
    })
}

// ---- folders

/// Puts that a file in a folder is not tried.
fn put_untried<D: Display + Drop>(notes: &mut Text, path: &str, why: D) {
    notes.say(format_args!("{}: not tried: {why}\n", Path(path)));
}

/// The paths of the files in a folder, if one is given, but for devices, FIFOs and sockets.
pub(crate) fn paths_in<F: Folders>(
    alloc: Global,
    folders: &F,
    folder: Option<&str>,
    notes: &mut Text,
) -> Result<Vec<String>, AllocError>
    ensures { IfOk result (λ v. AreFoundIn (option_map (λ f. f.now) folder.entry) (map string_bytes v.items)) }
{
    let mut paths = Vec::new(alloc);
    let Some(folder) = folder else {
        return Ok(paths);
    };
    for walked in walk_all(alloc, folders, &[String::from_str(alloc, folder)?])? {
        let Walked { path, is_named } = walked;
        if !is_named {
            put_untried(notes, path.as_str(), "its name is not UTF-8");
        } else if folders.special_at(path.as_str()).is_none() {
            paths.push(path)?;
        }
    }
    Ok(paths)
}

/// Whether bytes are an object. If their header is that of one and they are not, a line says why.
fn is_object(alloc: Global, notes: &mut Text, path: &str, bytes: &[u8]) -> Result<bool, AllocError>
    ensures { IfOk result (λ is. is ≡ not (is_err (object_in (decode bytes.now)))) }
{
    let why = match object_in(alloc, bytes)? {
        Ok(_) => return Ok(true),
        Err(why) => why,
    };
    if bytes.starts_with(b"\x07\x01") && bytes.get(14..16) == Some(b"\0\0".as_slice()) {
        put_untried(notes, path, why);
    }
    Ok(false)
}

// ---- one file after another

/// Where a path is from.
#[derive(Clone, Copy, PartialEq, Eq)]
pub(crate) enum PathFrom {
    Arguments,
    Folder,
}

/// The bytes of the file at a path, or of one in a folder the first ones.
fn bytes_at<O: FileSystem>(
    alloc: Global,
    file_system: &mut O,
    from: PathFrom,
    path: &str,
) -> Result<Vec<u8>, Fault>
    ensures ok { IfOk result (λ bytes.
        ReadsFor from (O.history file_system.old) (O.history file_system.new) path.now bytes.items) }
    ensures err { IfErr result (λ fault.
        EndsFor from (O.history file_system.old) (O.history file_system.new) path.now fault) }
{
    match from {
        PathFrom::Arguments => read_whole(alloc, file_system, NAME, path, MOST_BYTES),
        PathFrom::Folder => read_front(alloc, file_system, NAME, path, MOST_FRONT),
    }
}

/// Whether a file is taken: one in a folder only if it is an object.
fn is_taken(
    alloc: Global,
    from: PathFrom,
    notes: &mut Text,
    path: &str,
    bytes: &[u8],
) -> Result<bool, AllocError>
    ensures { IfOk result (λ is. is ≡ is_taken from bytes.now) }
{
    match from {
        PathFrom::Arguments => Ok(true),
        PathFrom::Folder => is_object(alloc, notes, path, bytes),
    }
}

/// Puts a file after the others, if it is taken.
fn push(
    alloc: Global,
    from: PathFrom,
    sources: &mut Vec<Source>,
    notes: &mut Text,
    path: &str,
    bytes: Vec<u8>,
) -> Result<(), AllocError>
    ensures { OnOk result (sources.new.items ≡ sources.old.items ++ taken from path.now bytes.items) }
{
    if is_taken(alloc, from, notes, path, &bytes)? {
        let path = String::from_str(alloc, path)?;
        sources.push(Source { path, bytes })?;
    }
    Ok(())
}

/// Reads a file, and puts it after the others.
#[tactic(auto, using(crate::proofs::ReadingLemmas::by_taken))]
fn take<O: FileSystem>(
    alloc: Global,
    file_system: &mut O,
    from: PathFrom,
    sources: &mut Vec<Source>,
    notes: &mut Text,
    path: &str,
) -> Result<(), Fault>
    ensures { Takes from path.now sources.old.items (O.history file_system.old) (O.history file_system.new)
        (after sources.new.items result) }
{
    let bytes = bytes_at(alloc, file_system, from, path)?;
    push(alloc, from, sources, notes, path, bytes)?;
    Ok(())
}

/// Reads each file before the next one is opened, and puts it after the others, up to the first that can't be read. Of files that were found
/// in a folder only objects are taken.
pub(crate) fn read_each<O: FileSystem>(
    alloc: Global,
    file_system: &mut O,
    from: PathFrom,
    sources: &mut Vec<Source>,
    notes: &mut Text,
    paths: &[String],
) -> Result<(), Fault>
    ensures { Each (Takes from) (map string_bytes paths.now) sources.old.items
        (O.history file_system.old) (O.history file_system.new) (after sources.new.items result) }
{
    for path in paths {
        take(alloc, file_system, from, sources, notes, path.as_str())?;
    }
    Ok(())
}

// ---- what files have to be

/// Why a file is no program to which `ld` links objects, if it is none.
fn no_program(file: &File) -> Option<&'static str>
    ensures { is_none result ≡ not (is_no_program file.now) }
{
    if file.header().magic == 0o405 {
        return Some("an overlay, and ld makes none");
    }
    if file.header().flag == 0 {
        return Some("an object: it has relocation");
    }
    None
}

/// The program of a file; other bytes, an overlay, and a file with relocation are refused.
fn program_of(alloc: Global, source: &Source) -> Result<File, Fault>
    ensures ok { IfOk result (λ program. decode source.now.bytes ≡ Ok program) }
    ensures taken { IfOk result (λ _. no_program (decode source.now.bytes) ≡ false) }
    ensures err { IfErr result (λ fault. Stops (no_program (decode source.now.bytes)) 2 fault) }
{
    let path = source.path.as_str();
    match decode_file(alloc, &source.bytes)? {
        Ok(file) => match no_program(&file) {
            None => Ok(file),
            Some(why) => Err(fault_at(alloc, NAME, path, why)),
        },
        Err(fault) => Err(fault_at(alloc, NAME, path, fault)),
    }
}

/// The object of a file.
fn object_of(alloc: Global, source: &Source) -> Result<Object, Fault>
    ensures taken { IfOk result (λ _. is_err (object_in (decode source.now.bytes)) ≡ false) }
    ensures err { IfErr result (λ fault. Stops (is_err (object_in (decode source.now.bytes))) 2 fault) }
{
    match object_in(alloc, &source.bytes)? {
        Ok(object) => Ok(object),
        Err(why) => Err(fault_at(alloc, NAME, source.path.as_str(), why)),
    }
}

/// The objects of files, up to the first that is none.
fn objects_of(alloc: Global, sources: &[Source]) -> Result<Vec<Object>, Fault>
    ensures taken { IfOk result (λ _. any_refused sources.now ≡ false) }
    ensures err { IfErr result (λ fault. Stops (any_refused sources.now) 2 fault) }
{
    let mut objects = Vec::new(alloc);
    for source in sources {
        objects.push(object_of(alloc, source)?)?;
    }
    Ok(objects)
}

/// The program of the first file, and the objects of the others.
#[tactic(auto, using(crate::proofs::RunLemmas::by_files))]
pub(crate) fn files_of(alloc: Global, sources: &[Source]) -> Result<(File, Vec<Object>), Fault>
    ensures ok { IfOk result (λ files. IsProgram sources.now files.0) }
    ensures taken { IfOk result (λ _. are_refused sources.now ≡ false) }
    ensures err { IfErr result (λ fault. Stops (are_refused sources.now) 2 fault) }
{
    let [first, others @ ..] = sources else {
        return Err(fault_at(alloc, NAME, ".", "no file is there"));
    };
    let program = program_of(alloc, first)?;
    Ok((program, objects_of(alloc, others)?))
}
