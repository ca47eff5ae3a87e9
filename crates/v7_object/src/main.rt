//! The program `v7-object`: makes an a.out file of a listing. Only tested: what is said of mistakes.
//! What names no manual page is our own choice.
#![tactic(auto)]

mod help;
mod making;
mod program;

use help::USAGE;
use host::{Disk, end, hold_streams, outputs_of, readable_words, refuse};
use program::{NAME, perform};
use std::io;
use std::process::ExitCode;

/// The status of the program. The streams are held until it has ended.
fn run(rt: &HostRuntime) -> io::Result<u8> {
    let _held = hold_streams(rt)?;
    Ok(match readable_words(rt.alloc(), rt)? {
        Ok(words) => perform(rt.alloc(), &mut Disk::new(rt), &mut outputs_of(rt), &words),
        Err(reason) => refuse(rt, NAME, USAGE, reason),
    })
}

fn main(rt: HostRuntime) -> ExitCode {
    ExitCode::from(end(&rt, NAME, run(&rt)))
}
