//! What a program shows in place of its work: the answers to `--help` and `--version`.
ghost use Rattle.std.specs.Prelude.{◌≡◌, ◌≤◌, [], map, string_bytes, IfOk};
ghost use Rattle.host.specs.Answers.{shown_by, shown_in};

use crate::answer::{Answer, Fault, give, refused_answer};
use crate::outputs::Outputs;
use crate::standard_error::StandardError;
use aout_core::Wire;
use std::alloc::{AllocError, AllocGlobal, Global};
use std::fmt::Display;
use std::io::{self, Printer};
use std::rt::Runtime;
use texts::Text;

/// The version of v7. include/v7.h has the same.
pub const VERSION: &str = "0.4.0";

/// What a program shows in place of its work.
#[derive(Clone, Copy, Debug, PartialEq, Eq)]
pub enum Shown {
    /// How it is called, and what its options do.
    Help,
    Version,
}

/// What an argument asks a program to show of itself: `--help` or `--version`.
fn shown_by(word: &str) -> Option<Shown>
    ensures { result ≡ shown_by word.now }
{
    match word {
        "--help" => Some(Shown::Help),
        "--version" => Some(Shown::Version),
        _ => None,
    }
}

/// What the arguments of a program ask to be shown: the first that asks, before `--`.
pub fn shown_in(words: &[String]) -> Option<Shown>
    ensures { result ≡ shown_in (map string_bytes words.now) }
{
    for word in words {
        if word.as_str() == "--" {
            return None;
        }
        if let Some(shown) = shown_by(word.as_str()) {
            return Some(shown);
        }
    }
    None
}

/// The answer to an argument that asks a program to show something of itself.
pub fn shown_answer(
    alloc: Global,
    program: &str,
    help: &str,
    shown: Shown,
) -> Result<Answer, AllocError>
    ensures { IfOk result (λ a. (a.errors ≡ []) × (a.status ≡ 0)) }
{
    let mut output = Text::new(alloc);
    match shown {
        Shown::Help => output.put(help),
        Shown::Version => output.say(format_args!("{program} {VERSION}\n")),
    }
    Ok(Answer {
        output: output.finish()?,
        errors: Vec::new(alloc),
        status: 0,
    })
}

/// The standard streams of a runtime.
pub fn outputs_of<H: Runtime>(rt: &H) -> Outputs<Printer<'_, H>, StandardError<'_, H>> {
    Outputs {
        output: Wire::new(io::writer(rt)),
        error: Wire::new(StandardError::new(rt)),
    }
}

/// Shows the help of a program on standard output, or its name and version, and returns its status: 0, or 2 if standard output failed
/// or memory ran out.
pub fn show<H: Runtime + AllocGlobal>(rt: &H, program: &str, help: &str, shown: Shown) -> u8
    ensures { result ≤ 2 }
{
    let answer = shown_answer(rt.alloc(), program, help, shown).map_err(Fault::from);
    give(program, &answer, &mut outputs_of(rt))
}

/// Says on standard error how a program is called, and why its arguments are refused, and returns its status: 2.
pub fn refuse<H: Runtime + AllocGlobal, D: Display + Drop>(
    rt: &H,
    program: &str,
    usage: &str,
    reason: D,
) -> u8
    ensures { result ≡ 2 }
{
    let answer = refused_answer(rt.alloc(), program, usage, reason).map_err(Fault::from);
    give(program, &answer, &mut outputs_of(rt))
}
