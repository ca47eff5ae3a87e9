//! The arguments of the program.
ghost use Rattle.std.specs.{Prelude.{◌≡◌, drop, IfOk}, Option.option_map, Vec.Iter.into_iter_items};
ghost use Rattle.host.specs.Arguments.{letters_of};

use std::alloc::{AllocError, Global};
use std::env::{Args, Env};
use texts::Printable;

/// All that an iterator still gives, in order.
fn gathered(alloc: Global, rest: Args) -> Result<Vec<String>, AllocError>
    ensures { IfOk result (λ words. words.items ≡ into_iter_items rest) }
{
    let mut words = Vec::new(alloc);
    for word in rest {
        words.push(word)?;
    }
    Ok(words)
}

/// The arguments of a command: of those that the system gives the program all after its name, in order, empty ones
/// too.
///
/// Errors: `AllocError` if memory runs out.
pub fn words(alloc: Global, arguments: Args) -> Result<Vec<String>, AllocError>
    ensures { IfOk result (λ words. words.items ≡ drop 1 (into_iter_items arguments)) }
{
    let mut rest = arguments;
    match rest.next() {
        Some(_) => gathered(alloc, rest),
        None => Ok(Vec::new(alloc)),
    }
}

/// How many bytes an argument has at most on Linux, with its NUL.
const MOST_BYTES: usize = 131_072;

/// The argument of this number, from 0 on, if there is one. The room is for the longest.
fn argument<R: Env>(
    alloc: Global,
    rt: &R,
    number: usize,
    room: &mut [u8],
) -> Result<Option<Vec<u8>>, AllocError> {
    let Ok(length) = rt.arg(number, room) else {
        return Ok(None);
    };
    let mut bytes = Vec::new(alloc);
    bytes.extend_from_slice(room.get(..length).unwrap_or(&[]))?;
    Ok(Some(bytes))
}

/// The arguments of a program after its name, in order. One that is not UTF-8 cannot be opened as a path, and shown in another way it
/// would name another file, so the first such one is the reason why all are refused. No contract can say what a system gives, so these
/// lines are to be read.
///
/// Errors: `AllocError` if memory runs out.
pub fn readable_words<R: Env>(
    alloc: Global,
    rt: &R,
) -> Result<Result<Vec<String>, String>, AllocError> {
    let mut room = vec![in alloc; 0; MOST_BYTES]?;
    let mut words = Vec::new(alloc);
    for number in 1..usize::MAX {
        match argument(alloc, rt, number, &mut room)?.map(String::from_utf8) {
            Some(Ok(text)) => words.push(text)?,
            Some(Err(error)) => {
                let bytes = error.into_bytes();
                return Ok(Err(format!(in alloc; "{}: not UTF-8", Printable(&bytes))?));
            }
            None => break,
        }
    }
    Ok(Ok(words))
}

/// The letters of an option, which is an argument that begins with a hyphen.
pub(crate) fn letters_of(word: &str) -> Option<&[u8]>
    ensures { option_map (λ letters. letters.now) result ≡ letters_of word.now }
{
    match word.as_bytes() {
        [b'-', letters @ ..] => Some(letters),
        _ => None,
    }
}
