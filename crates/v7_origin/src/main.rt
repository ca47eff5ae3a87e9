//! The program `v7-origin`: which objects a program was linked from. Only tested: what it finds but for the whole, and what it says.
//! What names no manual page is our own choice.
#![tactic(auto)]

mod candidates;
mod finding;
mod gaps;
mod help;
mod known;
mod late;
mod lines;
mod linking;
mod naming;
mod near;
mod origin;
mod program;
mod reading;
mod scanning;
mod search;

use help::USAGE;
use host::{Disk, DiskFolders, end, hold_streams, outputs_of, readable_words, refuse};
use program::{NAME, perform};
use std::io;
use std::process::ExitCode;

/// The status of the program. The streams are held until it has ended.
fn run(rt: &HostRuntime) -> io::Result<u8> {
    let _held = hold_streams(rt)?;
    Ok(match readable_words(rt.alloc(), rt)? {
        Ok(words) => perform(
            rt.alloc(),
            &mut Disk::of_files(rt),
            &DiskFolders { rt },
            &mut outputs_of(rt),
            &words,
        ),
        Err(reason) => refuse(rt, NAME, USAGE, reason),
    })
}

fn main(rt: HostRuntime) -> ExitCode {
    ExitCode::from(end(&rt, NAME, run(&rt)))
}
