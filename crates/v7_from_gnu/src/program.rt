//! The program, over any files and any streams.
ghost use Rattle.std.specs.Prelude.{map, string_bytes};
ghost use Rattle.host.specs.Programs.{AnswersGiven, DoesWords};
ghost use Rattle.v7_from_gnu.specs.{Calls.{conversion_asked, conversion_of}, Runs.{IsConversion, PerformsFromGnu}};

use crate::arguments::conversion_of;
use crate::converting::convert_files;
use crate::help::{HELP, USAGE};
use host::{
    Answer, Fault, FileSystem, Given, Outputs, give, given_in, refused_answer, shown_answer,
    shown_in,
};
use std::alloc::Global;
use std::io::Write;

/// The name of the program.
pub(crate) const NAME: &str = "v7-from-gnu";

/// Does the conversion that is asked for, if one is.
#[tactic(auto, using(host::proofs::ShownLemmas::by_words))]
fn answer_given<O: FileSystem>(
    alloc: Global,
    file_system: &mut O,
    given: &Given,
) -> Result<Answer, Fault>
    ensures { DoesWords IsConversion (conversion_of given.now)
        (O.history file_system.old) (O.history file_system.new) result }
{
    match conversion_of(alloc, given)? {
        Ok(conversion) => convert_files(alloc, file_system, conversion),
        Err(reason) => Ok(refused_answer(alloc, NAME, USAGE, reason)?),
    }
}

/// Does what the arguments ask for.
#[tactic(auto, using(host::proofs::ShownLemmas::by_read))]
fn answer_words<O: FileSystem>(
    alloc: Global,
    file_system: &mut O,
    words: &[String],
) -> Result<Answer, Fault>
    ensures { DoesWords IsConversion (conversion_asked (map string_bytes words.now))
        (O.history file_system.old) (O.history file_system.new) result }
{
    match given_in(alloc, b"SXxq", b"o", words)? {
        Ok(given) => answer_given(alloc, file_system, &given),
        Err(reason) => Ok(refused_answer(alloc, NAME, USAGE, reason)?),
    }
}

/// Does what the arguments ask for, and returns what is written at the end.
#[tactic(auto, using(host::proofs::ShownLemmas::by_shown))]
fn answer<O: FileSystem>(
    alloc: Global,
    file_system: &mut O,
    words: &[String],
) -> Result<Answer, Fault>
    ensures { AnswersGiven IsConversion conversion_asked
        (map string_bytes words.now) (O.history file_system.old) (O.history file_system.new) result }
{
    match shown_in(words) {
        Some(shown) => Ok(shown_answer(alloc, NAME, HELP, shown)?),
        None => answer_words(alloc, file_system, words),
    }
}

/// Does what the arguments ask for, over any `FileSystem` and any streams, and returns the status of the program: 0 if all files are
/// written, 1 if one is refused, and 2 for another fault.
pub fn perform<O: FileSystem, W: Write, E: Write>(
    alloc: Global,
    file_system: &mut O,
    outputs: &mut Outputs<W, E>,
    words: &[String],
) -> u8
    ensures { PerformsFromGnu W.contents E.contents (map string_bytes words.now)
        (record { asked = O.history file_system.old; output = outputs.old.output; error = outputs.old.error })
        (record { asked = O.history file_system.new; output = outputs.new.output; error = outputs.new.error }) result }
{
    let answer = answer(alloc, file_system, words);
    give(NAME, &answer, outputs)
}
