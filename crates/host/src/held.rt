//! Standard streams that are closed.
use aout_core::{FileFault, Refused};
use std::fs::File;
use std::os::fd::{AsFd, AsRawFd, BorrowedFd};
use std::{fs, io};

/// Whether a stream is open: then it can be copied.
fn is_open(stream: BorrowedFd<'_>) -> bool {
    stream.try_clone_to_owned().is_ok()
}

/// Opens a folder at each descriptor below 3 that is closed, since a file that a program opens would else take the place
/// of a standard stream. A folder is neither read nor written: what goes there is a read or a write error.
pub fn hold_streams(rt: &HostRuntime) -> io::Result<Vec<File>> {
    let mut held = Vec::new(rt.alloc());
    if is_open(rt.stdin().as_fd()) && is_open(rt.stdout().as_fd()) && is_open(rt.stderr().as_fd()) {
        return Ok(held);
    }
    for _ in 0..3 {
        let folder = fs::open(rt, "/")?;
        if folder.as_raw_fd() > 2 {
            break;
        }
        held.push(folder)?;
    }
    Ok(held)
}

/// The status of a program that ended, or that could not begin: then a line says why on standard error.
pub fn end(rt: &HostRuntime, program: &str, ended: io::Result<u8>) -> u8 {
    let error = match ended {
        Ok(status) => return status,
        Err(error) => error,
    };
    let _ = match Refused::reported_by(&error) {
        Some(refused) => eprintln!(rt; "{program}: {refused}"),
        None => eprintln!(rt; "{program}: /: {}", FileFault::NotOpened),
    };
    2
}
