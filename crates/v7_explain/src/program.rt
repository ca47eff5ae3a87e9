//! The program, over any files and any streams.
ghost use Rattle.std.specs.Prelude.{None, map, string_bytes};
ghost use Rattle.host.specs.Programs.{AnswersGiven, DoesWords};
ghost use Rattle.v7_explain.specs.{Calls.{asked_in, asked_or, call_of}, Runs.{IsCall, PerformsExplain}, internal.Asked.call_in};

use crate::arguments::{Call, after_map, call_of};
use crate::explaining::{explain_each, explain_walked};
use crate::help::{HELP, USAGE};
use crate::map::map_files;
use crate::question::answer_at;
use crate::storing::store_listing;
use host::{
    Answer, Fault, FileSystem, Folders, Given, Outputs, give, given_in, refused_answer,
    shown_answer, shown_in,
};
use std::alloc::Global;
use std::io::Write;

/// The name of the program.
pub(crate) const NAME: &str = "v7-explain";

#[tactic(auto, using(crate::proofs::AskedLemmas::call_done))]
fn do_call<O: FileSystem, F: Folders>(
    alloc: Global,
    file_system: &mut O,
    folders: &F,
    call: Call<'_>,
) -> Result<Answer, Fault>
    ensures { IsCall (call_in call.entry) (O.history file_system.old) (O.history file_system.new) result }
{
    match call {
        Call::Explain(mode, paths) => explain_each(alloc, file_system, folders, mode, paths),
        Call::Walk(paths) => explain_walked(alloc, file_system, folders, paths),
        Call::Store(to, path) => store_listing(alloc, file_system, to, path),
        Call::Ask(what, shows_function, path) => answer_at(
            alloc,
            file_system,
            what,
            shows_function,
            path,
        ),
    }
}

/// Does the call that is asked for, if one is.
#[tactic(auto, using(host::proofs::ShownLemmas::by_words))]
fn answer_given<O: FileSystem, F: Folders>(
    alloc: Global,
    file_system: &mut O,
    folders: &F,
    given: &Given,
) -> Result<Answer, Fault>
    ensures { DoesWords IsCall (call_of given.now) (O.history file_system.old) (O.history file_system.new) result }
{
    match call_of(given) {
        Ok(call) => do_call(alloc, file_system, folders, call),
        Err(reason) => Ok(refused_answer(alloc, NAME, USAGE, reason)?),
    }
}

/// Does what arguments ask for that do not begin with `-m`.
#[tactic(auto, using(host::proofs::ShownLemmas::by_read))]
fn answer_read<O: FileSystem, F: Folders>(
    alloc: Global,
    file_system: &mut O,
    folders: &F,
    words: &[String],
) -> Result<Answer, Fault>
    ensures { DoesWords IsCall (asked_or None (map string_bytes words.now)) (O.history file_system.old) (O.history file_system.new) result }
{
    match given_in(alloc, b"cdlmpRst", b"oy", words)? {
        Ok(given) => answer_given(alloc, file_system, folders, &given),
        Err(reason) => Ok(refused_answer(alloc, NAME, USAGE, reason)?),
    }
}

/// Does what the arguments ask for.
#[tactic(auto, using(crate::proofs::AskedLemmas::by_first))]
fn answer_words<O: FileSystem, F: Folders>(
    alloc: Global,
    file_system: &mut O,
    folders: &F,
    words: &[String],
) -> Result<Answer, Fault>
    ensures { DoesWords IsCall (asked_in (map string_bytes words.now)) (O.history file_system.old) (O.history file_system.new) result }
{
    match after_map(words) {
        Some(rest) => map_files(alloc, file_system, rest),
        None => answer_read(alloc, file_system, folders, words),
    }
}

/// Does what the arguments ask for, and returns what is written at the end.
#[tactic(auto, using(host::proofs::ShownLemmas::by_shown))]
fn answer<O: FileSystem, F: Folders>(
    alloc: Global,
    file_system: &mut O,
    folders: &F,
    words: &[String],
) -> Result<Answer, Fault>
    ensures { AnswersGiven IsCall asked_in (map string_bytes words.now) (O.history file_system.old) (O.history file_system.new) result }
{
    match shown_in(words) {
        Some(shown) => Ok(shown_answer(alloc, NAME, HELP, shown)?),
        None => answer_words(alloc, file_system, folders, words),
    }
}

/// Does what the arguments ask for, over any `FileSystem`, folders and streams, and returns the status of the program: 0 if there is nothing to
/// report, 1 if there is something, and 2 for another fault.
pub fn perform<O: FileSystem, F: Folders, W: Write, E: Write>(
    alloc: Global,
    file_system: &mut O,
    folders: &F,
    outputs: &mut Outputs<W, E>,
    words: &[String],
) -> u8
    ensures { PerformsExplain W.contents E.contents (map string_bytes words.now)
        (record { asked = O.history file_system.old; output = outputs.old.output; error = outputs.old.error })
        (record { asked = O.history file_system.new; output = outputs.new.output; error = outputs.new.error }) result }
{
    let answer = answer(alloc, file_system, folders, words);
    give(NAME, &answer, outputs)
}
