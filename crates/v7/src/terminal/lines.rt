//! Lines after a fault: why arguments are refused, and what else looks into a file.
use super::reasons::{Cause, Reason, Tool};
use aout_core::ReadFault;
use std::io;
use std::rt::Runtime;
use v7tools::CliFault;

/// What the value of an option is.
fn value_of(letter: char) -> &'static str {
    if letter == 'o' { "file" } else { "name" }
}

/// The first character of an argument from a place on.
fn letter_at(word: &str, place: usize) -> char {
    word.get(place..)
        .and_then(|rest| rest.chars().next())
        .unwrap_or('?')
}

/// Writes the reason, without the name of the tool, as a line.
fn put_cause<H: Runtime>(rt: &H, word: &str, cause: Cause) -> io::Result<()> {
    match cause {
        Cause::NoTool => eprintln!(rt; "there is no command {word}"),
        Cause::NoLongOption => eprintln!(rt; "there is no option {word}"),
        Cause::NoOption(place) => match letter_at(word, place.saturating_add(1)) {
            'l' => eprintln!(rt; "there is no option -l, as v7 reads no archives"),
            letter => eprintln!(rt; "there is no option -{letter}"),
        },
        Cause::NoValue(letter) => eprintln!(rt; "-{letter} needs a {}", value_of(letter)),
        Cause::SecondValue(letter) => eprintln!(rt; "-{letter} takes one {}", value_of(letter)),
        Cause::Excluded(one, other) => eprintln!(rt; "-{one} and -{other} exclude each other"),
        Cause::ManyNames => eprintln!(rt; "-u takes at most 64 different names"),
        Cause::NoFiles => eprintln!(rt; "it takes no file, and was given {word}"),
        Cause::FileMissing => eprintln!(rt; "it needs a file"),
    }
}

/// Writes why arguments are refused, and where help is: two lines.
pub(crate) fn put_reason<H: Runtime>(rt: &H, tool: Option<Tool>, words: &[String], reason: Reason) {
    let word = words.get(reason.at).map_or("", |word| word.as_str());
    let _ = match tool {
        Some(tool) => eprint!(rt; "{}: ", tool.name()),
        None => Ok(()),
    };
    let _ = put_cause(rt, word, reason.cause);
    let _ = match tool {
        Some(tool) => eprintln!(rt; "v7 {} --help shows how to call it", tool.name()),
        None => eprintln!(rt; "v7 --help lists the commands"),
    };
}

/// Writes a line after the fault of a file that `v7-explain` knows more of.
pub(crate) fn put_hint<H: Runtime>(rt: &H, fault: &CliFault) {
    let path = match fault {
        CliFault::BadFile(_, ReadFault::Device(_)) => return,
        CliFault::BadFile(path, _) | CliFault::BadObject(path, _) => path,
        _ => return,
    };
    let _ = eprintln!(rt; "v7-explain {path} says what this file is");
}
