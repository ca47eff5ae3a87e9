//! The lines of scripts that come in pieces, and how often a script asks its reader.
ghost use Rattle.std.specs.Prelude.{◌<◌};

use crate::fixtures::{ASKED, SCRIPT, answer_texts};
use aout_core::Wire;
use aout_core::samples::TestReader;
use std::alloc::Global;
use std::io::ErrorKind;
use std::test::Fail;
use v7tools::Script;

/// Asks a script for so many lines.
fn ask(script: &mut Script<&mut TestReader<'_>>, answers: usize) {
    for _ in 0..answers {
        let _ = script.next_line();
    }
}

/// How often a reader is called that gives at most `most` bytes a call, until its script has answered so often.
fn calls(alloc: Global, bytes: &[u8], most: usize, answers: usize) -> Option<u32>
    requires { 0 < most }
{
    let mut reader = TestReader::new(bytes, most, usize::MAX, ErrorKind::Other);
    let mut script = Script::new(alloc, Wire::new(&mut reader)).ok()?;
    ask(&mut script, answers);
    drop(script);
    Some(reader.calls())
}

/// What a script has, how many answers it gives, and how often its reader is called until then.
static ONE_BLOCK: [(&str, usize, u32); 4] = [
    (SCRIPT, 9, 1),
    (SCRIPT, 10, 2),
    ("add a.o", 1, 2),
    ("add a.o", 2, 2),
];

#[test]
fn script_of_one_block(rt: HostRuntime) {
    let alloc = rt.alloc();
    for (script, answers, times) in ONE_BLOCK {
        assert!(rt; calls(alloc, script.as_bytes(), 512, answers) == Some(times));
    }
    assert!(rt; calls(alloc, SCRIPT.as_bytes(), usize::MAX, 11) == Some(2));
}

/// How many answers a script gives whose lines come one by one, and how often its reader is called until then.
static TYPED: [(usize, u32); 4] = [(1, 1), (2, 2), (3, 3), (4, 3)];

#[test]
fn script_that_is_typed(rt: HostRuntime) {
    for (answers, times) in TYPED {
        assert!(rt; calls(rt.alloc(), b"withdraw\nwithdraw\n", 9, answers) == Some(times));
    }
}

#[test]
fn script_asked_for_a_longer_line(rt: HostRuntime) -> Result<(), Fail> {
    let line = vec![in rt.alloc(); b'x'; 5_000]?;
    assert!(rt; calls(rt.alloc(), &line, 512, 1) == Some(9));
    assert!(rt; calls(rt.alloc(), &line, 512, 2) == Some(9));
    Ok(())
}

/// A reader of these bytes that gives at most `most` a call.
fn in_pieces(bytes: &[u8], most: usize) -> TestReader<'_>
    requires { 0 < most }
{
    TestReader::new(bytes, most, usize::MAX, ErrorKind::Other)
}

/// Whether a script gives this answer next.
fn gives_next(script: &mut Script<TestReader<'_>>, wanted: (&str, &str)) -> bool {
    answer_texts(&script.next_line()) == wanted
}

/// Whether a script answers so, line after line.
fn gives_all(script: &mut Script<TestReader<'_>>, wanted: &[(&str, &str)]) -> bool {
    let mut is_given = true;
    for answer in wanted {
        is_given = is_given && gives_next(script, *answer);
    }
    is_given
}

/// Whether a script that is read so answers so.
fn script_gives(alloc: Global, reader: TestReader<'_>, wanted: &[(&str, &str)]) -> bool {
    match Script::new(alloc, Wire::new(reader)).ok() {
        Some(mut script) => gives_all(&mut script, wanted),
        None => false,
    }
}

/// A line `add` with a path of so many bytes.
fn long_line(alloc: Global, path_length: usize) -> Result<Vec<u8>, Fail> {
    let mut line = b"add ".to_vec(alloc)?;
    line.resize(path_length.saturating_add(4), b'x')?;
    Ok(line)
}

/// Whether the next line of a script asks to add a path of so many bytes.
fn adds_longest(script: &mut Script<TestReader<'_>>, length: usize) -> bool {
    let answer = script.next_line();
    let (command, path) = answer_texts(&answer);
    command == "add" && path.len() == length && path.as_bytes().iter().all(|byte| *byte == b'x')
}

/// Whether a script that is read so asks to add a path of 4,092 bytes, and then ends.
fn is_longest(alloc: Global, reader: TestReader<'_>) -> bool {
    match Script::new(alloc, Wire::new(reader)).ok() {
        Some(mut script) => {
            adds_longest(&mut script, 4092) && gives_next(&mut script, ("end", ""))
        }
        None => false,
    }
}

#[test]
fn script_pieces(rt: HostRuntime) -> Result<(), Fail> {
    let alloc = rt.alloc();
    let line = long_line(alloc, 4092)?;
    for most in [1, 5, 512] {
        assert!(rt; script_gives(alloc, in_pieces(SCRIPT.as_bytes(), most), &ASKED));
        assert!(rt; is_longest(alloc, in_pieces(&line, most)));
    }
    Ok(())
}

/// What a script answers whose device fails after its first line.
static FAILING: [(&str, &str); 3] = [
    ("withdraw", ""),
    ("script read error", ""),
    ("script read error", ""),
];

/// What is answered of a line that is too long, though another line follows it.
static LONGER: [(&str, &str); 2] = [("line too long", ""), ("line too long", "")];

#[test]
fn script_faults_stay(rt: HostRuntime) -> Result<(), Fail> {
    let failing = TestReader::new(b"withdraw\nadd a.o\n", 512, 11, ErrorKind::Other);
    assert!(rt; script_gives(rt.alloc(), failing, &FAILING));
    let mut lines = long_line(rt.alloc(), 4093)?;
    lines.extend_from_slice(b"\nwithdraw\n")?;
    assert!(rt; script_gives(rt.alloc(), in_pieces(&lines, 512), &LONGER));
    Ok(())
}
