//! The steps of a session whose answers fail at each byte.
use crate::fixtures::{ANSWERS, plain};
use aout_core::Wire;
use aout_core::samples::{C_O, D_O, Failing, TestReader, TestWriter};
use link_out::{Keep, Linked};
use link_session::Session;
use std::alloc::{AllocError, Global};
use std::io::ErrorKind;
use std::test::Fail;
use v7tools::{CliFault, Command, Step, Stored, link_answer, step};

/// The addition of what a reader gives, at a path.
fn add<'a>(
    alloc: Global,
    path: &str,
    reader: TestReader<'a>,
) -> Result<Command<TestReader<'a>>, AllocError> {
    Ok(Command::Add(String::from_str(alloc, path)?, Some(Wire::new(reader))))
}

/// What the line of this number of `session_script` asks for.
fn scripted(alloc: Global, line: u8) -> Result<Command<TestReader<'static>>, AllocError> {
    match line {
        0 => add(alloc, "c.o", TestReader::whole(&C_O)),
        1 => add(alloc, "d.o", TestReader::whole(&D_O)),
        2 => Ok(Command::Externals),
        4 => Ok(Command::Undefined),
        5 => Ok(Command::Link),
        3 | 6 | 7 => Ok(Command::Withdraw),
        _ => Ok(Command::Bad),
    }
}

/// How a step ended.
#[derive(Clone, Copy)]
enum Ended {
    Done,
    /// Its answer was not written.
    Unwritten,
    /// Another fault.
    Failed,
}

/// How a step ended that has this fault.
fn ended_by(fault: CliFault) -> Ended {
    match fault {
        CliFault::WriteFailed(_) => Ended::Unwritten,
        _ => Ended::Failed,
    }
}

/// A session, and its answers.
#[derive(Drop)]
struct Asked {
    session: Session,
    answers: Wire<TestWriter>,
}

impl Asked {
    /// A session without objects.
    fn new(alloc: Global, answers: TestWriter) -> Asked {
        Asked {
            session: Session::new(alloc),
            answers: Wire::new(answers),
        }
    }

    /// Answers a link as if its file were stored.
    fn store(&mut self, linked: &Linked) -> Ended {
        match link_answer(linked, "out", Stored::Kept, &mut self.answers) {
            Ok(_) => Ended::Done,
            Err(fault) => ended_by(fault),
        }
    }

    /// Takes a step, and answers its link.
    fn take(&mut self, alloc: Global, command: Command<TestReader<'_>>) -> Ended {
        let options = plain(Keep::All);
        let answers = &mut self.answers;
        match step(alloc, &mut self.session, &options, command, answers) {
            Ok(Step::Done | Step::Refused) => Ended::Done,
            Ok(Step::ToStore(linked)) => self.store(&linked),
            Err(fault) => ended_by(fault),
        }
    }
}

/// Whether two sessions show the same.
fn is_same(one: &Session, other: &Session) -> bool {
    let mut same = one.entries().len() == other.entries().len()
        && one.text_cells() == other.text_cells()
        && one.data_cells() == other.data_cells()
        && one.bss_total() == other.bss_total()
        && one.external_count() == other.external_count()
        && one.multiples() == other.multiples()
        && one.last_marks() == other.last_marks();
    for index in 0..one.external_count() {
        same = same && one.external(index) == other.external(index);
    }
    same
}

/// Takes the step of the line of this number of `session_script`.
fn take_scripted(alloc: Global, asked: &mut Asked, line: u8) -> Ended {
    match scripted(alloc, line) {
        Ok(command) => asked.take(alloc, command),
        Err(_) => Ended::Failed,
    }
}

/// Whether a step of `session_script` answers that it failed if and only if its answers fail.
fn is_reported(alloc: Global, asked: &mut Asked, line: u8) -> bool {
    match take_scripted(alloc, asked, line) {
        Ended::Done => !asked.answers.failed(),
        Ended::Unwritten => asked.answers.failed(),
        Ended::Failed => false,
    }
}

/// Takes a step of `session_script` with answers that may fail, beside a session whose answers do not: whether it ends
/// as it should, and the sessions are then the same.
fn is_alike(alloc: Global, line: u8, failing: &mut Asked, beside: &mut Asked) -> bool {
    is_reported(alloc, failing, line)
        && is_reported(alloc, beside, line)
        && !beside.answers.failed()
        && is_same(&failing.session, &beside.session)
}

/// Whether the steps of `session_script` do what they should with answers that fail.
fn are_alike(alloc: Global, failing: &mut Asked) -> bool {
    let mut beside = Asked::new(alloc, TestWriter::whole(Vec::new(alloc)));
    let mut are_alike = true;
    for line in 0..9 {
        are_alike = are_alike && is_alike(alloc, line, failing, &mut beside);
    }
    are_alike
}

/// Whether answers failed after `n` bytes, which are those of `session_script`.
fn failed_after(answers: Wire<TestWriter>, n: usize) -> bool {
    let has_failed = answers.failed();
    let writer = answers.into_inner();
    has_failed && Some(writer.taken()) == ANSWERS.as_bytes().get(..n)
}

/// Whether the steps of `session_script` do what they should with answers that fail after `n` bytes.
fn fails_after(alloc: Global, n: usize, failing: Failing) -> bool {
    let answers = TestWriter::new(Vec::new(alloc), usize::MAX, n, failing);
    let mut short = Asked::new(alloc, answers);
    let are_alike = are_alike(alloc, &mut short);
    let has_failed = failed_after(short.answers, n);
    are_alike && has_failed
}

#[test]
fn answers_fail_everywhere(rt: HostRuntime) -> Result<(), Fail> {
    let alloc = rt.alloc();
    for n in 0..ANSWERS.len() {
        assert!(rt; fails_after(alloc, n, Failing::Fails(ErrorKind::Interrupted)));
        assert!(rt; fails_after(alloc, n, Failing::TakesNothing));
    }
    Ok(())
}
