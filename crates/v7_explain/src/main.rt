//! The program `v7-explain`: an a.out file as a listing, with what is wrong and odd of it, whether files are objects, what is in
//! folders, or the map of a link.
//! What names no manual page is our own choice.
#![tactic(auto)]

mod arguments;
mod asked;
mod checking;
mod dump;
mod explaining;
mod file_kind;
mod functions;
mod help;
mod inventory;
mod inventory_line;
mod inventory_row;
mod listing;
mod map;
mod map_names;
mod map_objects;
mod map_odd;
mod map_parts;
mod map_spots;
mod mapped;
mod program;
mod question;
mod rows;
mod source;
mod storing;

use help::USAGE;
use host::{Disk, DiskFolders, end, hold_streams, outputs_of, readable_words, refuse};
use program::{NAME, perform};
use std::io;
use std::process::ExitCode;

/// The status of the program. The streams are held until it has ended.
fn run(rt: &HostRuntime) -> io::Result<u8> {
    let _held = hold_streams(rt)?;
    Ok(match readable_words(rt.alloc(), rt)? {
        Ok(words) => perform(
            rt.alloc(),
            &mut Disk::of_files(rt),
            &DiskFolders { rt },
            &mut outputs_of(rt),
            &words,
        ),
        Err(reason) => refuse(rt, NAME, USAGE, reason),
    })
}

fn main(rt: HostRuntime) -> ExitCode {
    ExitCode::from(end(&rt, NAME, run(&rt)))
}
