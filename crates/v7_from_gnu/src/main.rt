//! The program `v7-from-gnu`: makes objects of the Seventh Edition of those in the form of GNU's assembler. Only tested: what is said of
//! files and names.
//! What names no manual page is our own choice.
#![tactic(auto)]

mod arguments;
mod checks;
mod converting;
mod help;
mod lines;
mod program;
mod reading;
mod storing;

use help::USAGE;
use host::{Disk, end, hold_streams, outputs_of, readable_words, refuse};
use program::{NAME, perform};
use std::io;
use std::process::ExitCode;

/// The status of the program. The streams are held until it has ended.
fn run(rt: &HostRuntime) -> io::Result<u8> {
    let _held = hold_streams(rt)?;
    Ok(match readable_words(rt.alloc(), rt)? {
        Ok(words) => perform(rt.alloc(), &mut Disk::new(rt), &mut outputs_of(rt), &words),
        Err(reason) => refuse(rt, NAME, USAGE, reason),
    })
}

fn main(rt: HostRuntime) -> ExitCode {
    ExitCode::from(end(&rt, NAME, run(&rt)))
}
