//! The file of a listing. It is written only if the listing has no mistake.
ghost use Rattle.std.specs.Prelude.{IfOk};
ghost use Rattle.host.specs.Answers.{Ends, FindsOr};
ghost use Rattle.v7_object.specs.Runs.{IsMaking, IsStoring, file_in};

use crate::program::NAME;
use aout_core::File;
use host::{
    Answer, Fault, FileSystem, Path, answer_stored, check_output, error_answer, read_whole,
};
use listings::{Addresses, ListingFault, Mistakes, Reason, read_listing, says_something};
use std::alloc::{AllocError, Global};
use texts::Text;

/// The most bytes of a listing that is read: 250 for each word of the largest file.
const MOST_BYTES: u32 = 16_777_216;

fn put_mistake(lines: &mut Text, path: &str, mistake: listings::Fault) {
    let listings::Fault {
        line,
        column,
        reason,
    } = mistake;
    let path = Path(path);
    lines.say(format_args!("{NAME}: {path}: line {line}, column {column}: {reason}\n"));
}

/// The answer to a listing that has no line but remarks.
fn silent_listing(alloc: Global, path: &str) -> Result<Answer, AllocError>
    ensures { IfOk result (Ends 1) }
{
    let mut line = Text::new(alloc);
    line.say(format_args!("{NAME}: {}: no line but remarks\n", Path(path)));
    error_answer(alloc, line, 1)
}

/// The answer with the mistakes of a listing. One that has only a head is not said to be cut.
fn mistaken(
    alloc: Global,
    path: &str,
    text: &[u8],
    mistakes: &Mistakes,
) -> Result<Answer, AllocError>
    ensures { IfOk result (Ends 1) }
{
    if mistakes.first.reason == Reason::NoEnd && !says_something(text) {
        return silent_listing(alloc, path);
    }
    let mut lines = Text::new(alloc);
    put_mistake(&mut lines, path, mistakes.first);
    for mistake in &mistakes.others {
        put_mistake(&mut lines, path, *mistake);
    }
    error_answer(alloc, lines, 1)
}

/// The file of a listing.
fn file_in(alloc: Global, addresses: Addresses, path: &str, text: &[u8]) -> Result<File, Fault>
    ensures { FindsOr (file_in addresses text.now) result }
{
    match read_listing(alloc, addresses, text) {
        Ok(file) if says_something(text) => Ok(file),
        Ok(_) => Err(Fault::Answered(silent_listing(alloc, path)?)),
        Err(ListingFault::Wrong(mistakes)) => {
            Err(Fault::Answered(mistaken(alloc, path, text, &mistakes)?))
        }
        Err(ListingFault::Memory(refused)) => Err(Fault::Memory(refused)),
    }
}

fn store<O: FileSystem>(
    alloc: Global,
    file_system: &mut O,
    to: &str,
    file: &File,
) -> Result<Answer, Fault>
    ensures { IsStoring to.now file.now (O.history file_system.old) (O.history file_system.new) result }
{
    let done = error_answer(alloc, Text::new(alloc), 0)?;
    let stored = file_system.store(to, file);
    answer_stored(alloc, NAME, to, stored, done)
}

pub(crate) fn make_file<O: FileSystem>(
    alloc: Global,
    file_system: &mut O,
    addresses: Addresses,
    listing: &str,
    to: &str,
) -> Result<Answer, Fault>
    ensures { IsMaking (record { addresses = addresses; listing = listing.now; to = to.now })
        (O.history file_system.old) (O.history file_system.new) result }
{
    check_output(alloc, file_system, NAME, listing, to)?;
    let text = read_whole(alloc, file_system, NAME, listing, MOST_BYTES)?;
    let file = file_in(alloc, addresses, listing, &text)?;
    store(alloc, file_system, to, &file)
}
