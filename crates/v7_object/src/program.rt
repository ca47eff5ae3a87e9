//! The program, over any files and any streams.
ghost use Rattle.std.specs.Prelude.{◌≡◌, map, string_bytes};
ghost use Rattle.host.specs.Programs.{AnswersGiven, DoesWords};
ghost use Rattle.v7_object.specs.Runs.{IsMaking, PerformsObject, addresses_in, making_asked, making_in, result_in};

use crate::help::{HELP, USAGE};
use crate::making::make_file;
use host::{
    Answer, Fault, FileSystem, Given, Outputs, Reason, give, given_in, refused_answer,
    shown_answer, shown_in,
};
use listings::Addresses;
use std::alloc::Global;
use std::io::Write;

/// The name of the program.
pub(crate) const NAME: &str = "v7-object";

/// What is done with addresses.
fn addresses_in(given: &Given) -> Addresses
    ensures { result ≡ addresses_in given.now }
{
    if given.has(b'n') {
        Addresses::Computed
    } else {
        Addresses::Compared
    }
}

/// What is done with addresses, and the paths of a listing and of its file, if there are two paths.
fn making_in(given: &Given) -> Result<(Addresses, &str, &str), Reason>
    ensures { result_in result ≡ making_in given.now }
{
    match given.paths() {
        [listing, to] => Ok((addresses_in(given), listing.as_str(), to.as_str())),
        _ => Err(Reason::NotTwoFiles),
    }
}

/// Makes the file of a listing, if that is asked for.
#[tactic(auto, using(host::proofs::ShownLemmas::by_words))]
fn answer_given<O: FileSystem>(
    alloc: Global,
    file_system: &mut O,
    given: &Given,
) -> Result<Answer, Fault>
    ensures { DoesWords IsMaking (making_in given.now)
        (O.history file_system.old) (O.history file_system.new) result }
{
    match making_in(given) {
        Ok((addresses, listing, to)) => make_file(alloc, file_system, addresses, listing, to),
        Err(reason) => Ok(refused_answer(alloc, NAME, USAGE, reason)?),
    }
}

/// Does what the arguments ask for.
#[tactic(auto, using(host::proofs::ShownLemmas::by_read))]
fn answer_words<O: FileSystem>(
    alloc: Global,
    file_system: &mut O,
    words: &[String],
) -> Result<Answer, Fault>
    ensures { DoesWords IsMaking (making_asked (map string_bytes words.now))
        (O.history file_system.old) (O.history file_system.new) result }
{
    match given_in(alloc, b"n", b"", words)? {
        Ok(given) => answer_given(alloc, file_system, &given),
        Err(reason) => Ok(refused_answer(alloc, NAME, USAGE, reason)?),
    }
}

/// Does what the arguments ask for, and returns what is written at the end.
#[tactic(auto, using(host::proofs::ShownLemmas::by_shown))]
fn answer<O: FileSystem>(
    alloc: Global,
    file_system: &mut O,
    words: &[String],
) -> Result<Answer, Fault>
    ensures { AnswersGiven IsMaking making_asked (map string_bytes words.now)
        (O.history file_system.old) (O.history file_system.new) result }
{
    match shown_in(words) {
        Some(shown) => Ok(shown_answer(alloc, NAME, HELP, shown)?),
        None => answer_words(alloc, file_system, words),
    }
}

/// Does what the arguments ask for, over any `FileSystem` and any streams, and returns the status of the program: 0 if the file is
/// written, 1 if the listing has a mistake, and 2 for another fault.
pub fn perform<O: FileSystem, W: Write, E: Write>(
    alloc: Global,
    file_system: &mut O,
    outputs: &mut Outputs<W, E>,
    words: &[String],
) -> u8
    ensures { PerformsObject W.contents E.contents (map string_bytes words.now)
        (record { asked = O.history file_system.old; output = outputs.old.output; error = outputs.old.error })
        (record { asked = O.history file_system.new; output = outputs.new.output; error = outputs.new.error }) result }
{
    let answer = answer(alloc, file_system, words);
    give(NAME, &answer, outputs)
}
