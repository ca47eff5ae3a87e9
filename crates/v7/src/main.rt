//! The program `v7`: the object tools of PDP-11 Unix, each named by the first argument.
#![tactic(auto)]

mod terminal;

use host::{end, hold_streams};
use std::io::IsTerminal;
use std::process::ExitCode;
use std::{env, io};
use terminal::command_at_terminal;
use v7tools::{command, words};

/// The status of the command. The streams are held until it has ended. More is written only if standard error is a terminal.
fn run(rt: &HostRuntime) -> io::Result<u8> {
    let _held = hold_streams(rt)?;
    let arguments = match env::args(rt) {
        Err(error) if error.kind() == io::ErrorKind::InvalidData => {
            let _ = rt.eprint(if rt.stderr().is_terminal() {
                USAGE_AT_TERMINAL
            } else {
                USAGE
            });
            return Ok(2);
        }
        arguments => arguments?,
    };
    let words = words(rt.alloc(), arguments)?;
    if rt.stderr().is_terminal() {
        return Ok(command_at_terminal(rt, rt.stdin().is_terminal(), words));
    }
    Ok(command(rt, words))
}

/// What is said if an argument is not UTF-8.
const USAGE: &str = "v7: usage\n";
/// The same at a terminal.
const USAGE_AT_TERMINAL: &str =
    "v7: usage\nan argument is not UTF-8\nv7 --help lists the commands\n";

fn main(rt: HostRuntime) -> ExitCode {
    ExitCode::from(end(&rt, "v7", run(&rt)))
}
