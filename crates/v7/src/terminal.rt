//! The program at a terminal: pages of help, why arguments are refused, what else looks into a file, and a session with a prompt.
//! Nothing of this is written if standard error is not a terminal.
ghost use Rattle.std.specs.Prelude.{◌≡◌, ◌≤◌, ◌⊎◌, ℕ, List, Option, Result, map, string_bytes, IfErr, IfOk};
ghost use Rattle.v7tools.specs.{CommandRuns.RunsWords, declared.fault.CliFault.CliFault, declared.fault.CliFault.TheVariants.Usage};

mod answers;
mod lines;
mod near;
mod pages;
mod prompts;
mod reasons;

use answers::{Answer, Answers};
use aout_core::{BufferedWrite, Wire};
use host::{Disk, FileSystem, show, words};
use lines::{put_hint, put_reason};
use pages::{asked_shown, page_asked};
use prompts::Prompts;
use reasons::{Tool, first_reason};
use std::cell::Cell;
use std::rt::Runtime;
use std::{env, io};
use v7tools::{BlockWriter, CliFault, attempt};

/// The arguments once more.
fn arguments<H: Runtime + AllocGlobal>(rt: &H) -> io::Result<Vec<String>> {
    Ok(words(rt.alloc(), env::args(rt)?)?)
}

/// Shows a page of help or the version, if that is what refused arguments ask for; or says that they are refused as
/// `v7tools::command` does, and then why, and where help is. It returns the status.
fn refuse<H: Runtime + AllocGlobal>(rt: &H, words: &[String]) -> u8
    ensures { result ≤ 2 }
{
    let tool = words.first().and_then(|name| Tool::named(name.as_str()));
    let reason = first_reason(words);
    if let Some(shown) = asked_shown(words, reason) {
        return show(rt, "v7", page_asked(words), shown);
    }
    let _ = rt.eprint("v7: usage\n");
    if let Some(reason) = reason {
        put_reason(rt, tool, words, reason);
    }
    2
}

/// Writes the line of a fault, and a hint after it; a page, if the arguments ask for that. It returns the status.
fn report<H: Runtime + AllocGlobal>(rt: &H, fault: &CliFault) -> u8
    ensures small { result ≤ 2 }
    ensures two { (fault.now ≡ Usage) ⊎ (result ≡ 2) }
{
    if matches!(fault, CliFault::Usage)
        && let Ok(words) = arguments(rt)
    {
        return refuse(rt, &words);
    }
    let _ = eprintln!(rt; "v7: {fault}");
    put_hint(rt, fault);
    2
}

/// Does what the arguments ask for, over any `FileSystem`, and returns the status; if `is_typed`, a session reads its script after prompts.
fn attempt_at_terminal<H: Runtime + AllocGlobal, O: FileSystem, W: BufferedWrite>(
    rt: &H,
    file_system: &mut O,
    is_typed: bool,
    prompts: &mut Prompts<'_, H>,
    output: &mut Wire<W>,
    words: Vec<String>,
) -> u8
    ensures small { result ≤ 2 }
    // as `attempt`; the status is 2 for a fault, unless the arguments ask for no call: it may be for a page
    ensures run { (script : Option (List ℕ)) × (done : Result ℕ CliFault)
        × RunsWords W.contents (map string_bytes words.items) script (O.history file_system.old) (O.history file_system.new) done output.old output.new
        × IfOk done (λ status. result ≡ status) × IfErr done (λ fault. (fault ≡ Usage) ⊎ (result ≡ 2)) }
{
    let done = if is_typed {
        attempt(rt.alloc(), file_system, &mut *prompts, output, words)
    } else {
        attempt(rt.alloc(), file_system, rt.reader(), output, words)
    };
    match done {
        Ok(status) => {
            prompts.end(status);
            status
        }
        Err(fault) => report(rt, &fault),
    }
}

/// Does what the arguments ask for, for a reader at a terminal, and returns the status of the program. It is that of
/// `v7tools::command`, but 0 if a page of help or the version is asked for, which go to standard output. `is_typed`: standard
/// input is a terminal too, so a session has a prompt.
pub(crate) fn command_at_terminal<H: Runtime + AllocGlobal>(
    rt: &H,
    is_typed: bool,
    words: Vec<String>,
) -> u8
    ensures { result ≤ 2 }
{
    let answer = Cell::new(Answer::NONE);
    let mut prompts = Prompts::new(rt, &answer);
    let mut file_system = Disk::new(rt);
    let mut output = Wire::new(BlockWriter::new(Answers::new(io::writer(rt), &answer)));
    attempt_at_terminal(
        rt,
        &mut file_system,
        is_typed,
        &mut prompts,
        &mut output,
        words,
    )
}
