//! The program, over any files and any streams.
ghost use Rattle.std.specs.Prelude.{◌≡◌, map, string_bytes};
ghost use Rattle.host.specs.Programs.{AnswersGiven, DoesWords};
ghost use Rattle.v7_origin.specs.Runs.{call_asked, call_in, IsOrigin, PerformsOrigin, refusal_by, refusal_of};

use crate::help::{HELP, USAGE};
use crate::origin::origin_of;
use host::{
    Answer, Fault, FileSystem, Folders, Given, Outputs, Reason, give, given_in, refused_answer,
    shown_answer, shown_in,
};
use std::alloc::Global;
use std::io::Write;

/// The name of the program.
pub(crate) const NAME: &str = "v7-origin";

/// Why arguments with these paths are refused: they name no program, or `-a` comes without `-o`.
fn refusal_by(given: &Given, paths: &[String]) -> Option<Reason>
    ensures { result ≡ refusal_by given.now (map string_bytes paths.now) }
{
    let [_, ..] = paths else {
        return Some(Reason::NoFile);
    };
    let out = given.value_of(b'o');
    if given.has(b'a') && out.is_none() {
        return Some(Reason::Needs(b'a', b'o'));
    }
    None
}

fn refusal_of(given: &Given) -> Option<Reason>
    ensures { result ≡ refusal_of given.now }
{
    refusal_by(given, given.paths())
}

/// Does what is asked for, if something is.
#[tactic(auto, using(crate::proofs::RunLemmas::by_given))]
fn answer_given<O: FileSystem, F: Folders>(
    alloc: Global,
    file_system: &mut O,
    folders: &F,
    given: &Given,
) -> Result<Answer, Fault>
    ensures { DoesWords IsOrigin (call_in given.now)
        (O.history file_system.old) (O.history file_system.new) result }
{
    match refusal_of(given) {
        None => origin_of(alloc, file_system, folders, given),
        Some(reason) => Ok(refused_answer(alloc, NAME, USAGE, reason)?),
    }
}

/// Does what the arguments ask for.
#[tactic(auto, using(host::proofs::ShownLemmas::by_read))]
fn answer_words<O: FileSystem, F: Folders>(
    alloc: Global,
    file_system: &mut O,
    folders: &F,
    words: &[String],
) -> Result<Answer, Fault>
    ensures { DoesWords IsOrigin (call_asked (map string_bytes words.now))
        (O.history file_system.old) (O.history file_system.new) result }
{
    match given_in(alloc, b"aq", b"oR", words)? {
        Ok(given) => answer_given(alloc, file_system, folders, &given),
        Err(reason) => Ok(refused_answer(alloc, NAME, USAGE, reason)?),
    }
}

/// Does what the arguments ask for, and returns what is written at the end.
#[tactic(auto, using(host::proofs::ShownLemmas::by_shown))]
fn answer<O: FileSystem, F: Folders>(
    alloc: Global,
    file_system: &mut O,
    folders: &F,
    words: &[String],
) -> Result<Answer, Fault>
    ensures { AnswersGiven IsOrigin call_asked (map string_bytes words.now)
        (O.history file_system.old) (O.history file_system.new) result }
{
    match shown_in(words) {
        Some(shown) => Ok(shown_answer(alloc, NAME, HELP, shown)?),
        None => answer_words(alloc, file_system, folders, words),
    }
}

/// Does what the arguments ask for, over any `FileSystem`, folders and streams, and returns the status of the program: 0 if all of the program is
/// found, 1 if not, and 2 after an error.
pub fn perform<O: FileSystem, F: Folders, W: Write, E: Write>(
    alloc: Global,
    file_system: &mut O,
    folders: &F,
    outputs: &mut Outputs<W, E>,
    words: &[String],
) -> u8
    ensures { PerformsOrigin W.contents E.contents (map string_bytes words.now)
        (record { asked = O.history file_system.old; output = outputs.old.output; error = outputs.old.error })
        (record { asked = O.history file_system.new; output = outputs.new.output; error = outputs.new.error }) result }
{
    let answer = answer(alloc, file_system, folders, words);
    give(NAME, &answer, outputs)
}
