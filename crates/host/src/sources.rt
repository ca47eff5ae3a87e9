//! Files that are read whole, or from the beginning.
ghost use Rattle.std.specs.Prelude.{◌≡◌, ◌≤◌, false, length, nat_lt, IfErr, IfOk};
ghost use Rattle.host.specs.{Answers.Stops, Sources.{EndsBroken, EndsReading, ReadsAt, ReadsFront}};
ghost use Rattle.host.specs.internal.Readings.{Takes, TakesAt, is_of_system};

use crate::answer::{Fault, fault_at};
use crate::file_system::FileSystem;
use aout_core::{FileFault, Refused, Wire};
use std::alloc::Global;
use std::io::Read;

/// How many bytes are read by one call of a file, at most.
const PIECE_SIZE: usize = 4096;

/// The bytes that a wire still gives, at most so many.
fn bytes_on<R: Read>(alloc: Global, source: &mut Wire<R>, most: usize) -> Result<Vec<u8>, FileFault>
    requires { source.old.has_failed ≡ false }
    ensures { Takes most (R.remaining source.old.device) source.new.has_failed result }
{
    let mut bytes = Vec::new(alloc);
    let mut piece = [0; PIECE_SIZE];
    let mut left = most;
    while left > 0 {
        let room = left.min(PIECE_SIZE);
        let Ok(count) = source.read(&mut piece[..room]) else {
            return Err(FileFault::Failed);
        };
        if count == 0 {
            return Ok(bytes);
        }
        if let Err(refused) = bytes.extend_from_slice(&piece[..count]) {
            return Err(FileFault::Memory(Refused::from(refused)));
        }
        left -= count;
    }
    Ok(bytes)
}

/// The bytes of the file at a path, at most so many.
fn bytes_at<O: FileSystem>(
    alloc: Global,
    file_system: &mut O,
    path: &str,
    most: u64,
) -> Result<Vec<u8>, FileFault>
    ensures { TakesAt most (O.history file_system.old) (O.history file_system.new) path.now result }
{
    let Ok(source) = file_system.open(path) else {
        return Err(FileFault::NotOpened);
    };
    let mut source = Wire::new(source);
    let taken = bytes_on(alloc, &mut source, most as usize);
    file_system.close(source);
    taken
}

/// The fault in which a program says why the file at a path was not read.
fn fault_of(alloc: Global, program: &str, path: &str, why: FileFault) -> Fault
    ensures { Stops (is_of_system why) 2 result }
{
    match why {
        FileFault::Memory(refused) => Fault::Memory(refused),
        FileFault::NotOpened | FileFault::Failed => fault_at(alloc, program, path, why),
    }
}

/// The first bytes of the file at a path, at most so many, for a program of this name; or the line that it can't be opened or read.
#[tactic(auto, using(crate::proofs::ReadingLemmas::not_taken))]
pub fn read_front<O: FileSystem>(
    alloc: Global,
    file_system: &mut O,
    program: &str,
    path: &str,
    most: u64,
) -> Result<Vec<u8>, Fault>
    ensures ok { IfOk result (λ bytes.
        ReadsFront most (O.history file_system.old) (O.history file_system.new) path.now bytes.items) }
    ensures err { IfErr result (λ fault.
        EndsBroken (O.history file_system.old) (O.history file_system.new) path.now fault) }
{
    match bytes_at(alloc, file_system, path, most) {
        Ok(bytes) => Ok(bytes),
        Err(why) => Err(fault_of(alloc, program, path, why)),
    }
}

/// These bytes, if they are at most so many; or the line that the file at a path is too long.
fn unless_long(
    alloc: Global,
    program: &str,
    path: &str,
    most: u32,
    bytes: Vec<u8>,
) -> Result<Vec<u8>, Fault>
    ensures same { IfOk result (λ kept. kept.items ≡ bytes.items) }
    ensures within { IfOk result (λ _. length bytes.items ≤ most) }
    ensures err { IfErr result (λ fault. Stops (nat_lt most (length bytes.items)) 2 fault) }
{
    if bytes.len() > most as usize {
        return Err(fault_at(alloc, program, path, "file too long"));
    }
    Ok(bytes)
}

/// All bytes of the file at a path, for a program of this name and files of at most so many bytes; or the line that it can't be opened
/// or read, or is too long. No more than one byte after so many is read.
pub fn read_whole<O: FileSystem>(
    alloc: Global,
    file_system: &mut O,
    program: &str,
    path: &str,
    most: u32,
) -> Result<Vec<u8>, Fault>
    ensures ok { IfOk result (λ bytes.
        ReadsAt (O.history file_system.old) (O.history file_system.new) path.now bytes.items) }
    ensures within { IfOk result (λ bytes. length bytes.items ≤ most) }
    ensures err { IfErr result (λ fault.
        EndsReading most (O.history file_system.old) (O.history file_system.new) path.now fault) }
{
    let bytes = read_front(alloc, file_system, program, path, u64::from(most) + 1)?;
    unless_long(alloc, program, path, most, bytes)
}
