//! The steps of a session, and their answers.
ghost use Rattle.std.specs.Prelude.{◌≡◌, ◌++◌, true, IfErr, IfOk, IfSome, IsTrue};
ghost use Rattle.aout_core.specs.{WellFormed.IsWellFormed, Wires.Writes, Refusals.device_fault};
ghost use Rattle.link_session.specs.{Edits.last_of, Labelled.objects};
ghost use Rattle.link_out.specs.{function.Link.link, function.Reports.line};
ghost use Rattle.v7tools.specs.{declared.fault.CliFault.TheVariants.WriteFailed, declared.session.commands.Step.TheVariants.Refused};
ghost use Rattle.v7tools.specs.{FaultTexts.cli_text, internal.StepParts.{label_of, MakesLink, TakesAddStep, TakesWithdrawal}};
ghost use Rattle.v7tools.specs.SessionSteps.{StoresObject, TakesStep};

use crate::fault::CliFault;
use crate::link::additions::add_file;
use crate::session::commands::{Command, Step};
use crate::session::externals::{put_externals, put_undefined};
use aout_core::{DeviceFault, Wire};
use link_out::{Linked, Options, finish};
use link_session::Session;
use std::alloc::Global;
use std::io::{Read, Write};

/// Writes two texts on one line.
fn put_line<W: Write>(first: &[u8], second: &[u8], answers: &mut Wire<W>) -> Result<(), DeviceFault>
    ensures { Writes W.contents result answers.old answers.new (line (first.now ++ second.now)) }
{
    answers.put_both(first, second)?;
    answers.put(b"\n")
}

/// Writes the text of a fault and a newline.
fn put_fault<W: Write>(fault: &CliFault, answers: &mut Wire<W>) -> Result<(), DeviceFault>
    ensures { Writes W.contents result answers.old answers.new (line (cli_text fault.now)) }
{
    fault.write_text(answers)?;
    answers.put(b"\n")
}

/// Answers with the text of a fault.
pub(crate) fn refuse<W: Write>(fault: &CliFault, answers: &mut Wire<W>) -> Result<Step, CliFault>
    ensures written { Writes W.contents result answers.old answers.new (line (cli_text fault.now)) }
    ensures write_failed { IfErr result (λ fault. fault ≡ WriteFailed device_fault) }
    ensures step { IfOk result (λ step. step ≡ Refused) }
{
    put_fault(fault, answers)?;
    Ok(Step::Refused)
}

/// The label of the last object; empty without objects.
fn last_label(session: &Session) -> &str
    ensures { result.now ≡ label_of (last_of session.now.entries) }
{
    match session.entries().last() {
        Some(entry) => entry.label(),
        None => "",
    }
}

/// Adds the file at a path, and answers with its label.
pub(crate) fn add<R: Read, W: Write>(
    alloc: Global,
    session: &mut Session,
    path: String,
    wire: &mut Wire<R>,
    answers: &mut Wire<W>,
) -> Result<Step, CliFault>
    ensures write_failed { IfErr result (λ fault. fault ≡ WriteFailed device_fault) }
    ensures latched { IsTrue answers.old.has_failed → (answers.new ≡ answers.old) }
    ensures step { TakesAddStep R.remaining W.contents path wire.old wire.new
        session.old session.new result answers.old answers.new }
    ensures object { IfOk result StoresObject }
{
    match add_file(alloc, session, path, wire) {
        Ok(()) => {
            put_line(b"added ", last_label(session).as_bytes(), answers)?;
            Ok(Step::Done)
        }
        Err(fault) => refuse(&fault, answers),
    }
}

/// Takes the last object away, and answers with its label.
fn withdraw<W: Write>(session: &mut Session, answers: &mut Wire<W>) -> Result<Step, CliFault>
    ensures write_failed { IfErr result (λ fault. fault ≡ WriteFailed device_fault) }
    ensures latched { IsTrue answers.old.has_failed → (answers.new ≡ answers.old) }
    ensures step { TakesWithdrawal W.contents session.old session.new result
        answers.old answers.new }
    ensures object { IfOk result StoresObject }
{
    match session.withdraw() {
        Some((label, _)) => {
            put_line(b"withdrew ", label.as_bytes(), answers)?;
            Ok(Step::Done)
        }
        None => {
            put_line(b"nothing to withdraw", b"", answers)?;
            Ok(Step::Refused)
        }
    }
}

/// Links the objects. If there is no link, it answers with the fault and returns nothing.
pub(crate) fn make_link<W: Write>(
    alloc: Global,
    session: &Session,
    options: &Options,
    answers: &mut Wire<W>,
) -> Result<Option<Linked>, CliFault>
    ensures write_failed { IfErr result (λ fault. fault ≡ WriteFailed device_fault) }
    ensures latched { IsTrue answers.old.has_failed → (answers.new ≡ answers.old) }
    ensures link { MakesLink W.contents
        (link session.now.forced (objects session.now.entries) options.now) result
        answers.old answers.new }
    ensures object { options.now.relocatable ≡ true
        → IfOk result (λ made. IfSome made (λ linked. IsWellFormed linked.file)) }
{
    match finish(alloc, session, options) {
        Ok(linked) => Ok(Some(linked)),
        Err(fault) => {
            put_fault(&CliFault::from(fault), answers)?;
            Ok(None)
        }
    }
}

/// Does what a command asks for, and writes the answer. This is `added PATH` or the text of the fault,
/// `withdrew LABEL` or `nothing to withdraw`, the nm lines of the externals, the undefined names, the text of the fault
/// that refuses a link, or `bad command`.
///
/// For a link that is made nothing is written; with relocation its file is an object. A step that is `Refused` leaves the
/// session as it was, also without memory, which answers `no memory`. Only adding and linking request memory.
///
/// Errors: `WriteFailed`, 8, if the answers' wire failed, now or before, but for a link that is made, which writes
/// nothing: a prefix of the answer went out, and the session is as after the command.
pub fn step<R: Read + Drop, W: Write>(
    alloc: Global,
    session: &mut Session,
    options: &Options,
    command: Command<R>,
    answers: &mut Wire<W>,
) -> Result<Step, CliFault>
    ensures write_failed { IfErr result (λ fault. fault ≡ WriteFailed device_fault) }
    ensures latched { IsTrue answers.old.has_failed → (answers.new ≡ answers.old) }
    ensures forced { session.new.forced ≡ session.old.forced }
    ensures step { TakesStep R.remaining W.contents options.now command session.old session.new
        result answers.old answers.new }
    ensures object { options.now.relocatable ≡ true → IfOk result StoresObject }
{
    match command {
        Command::Add(path, wire) => match wire {
            Some(mut wire) => add(alloc, session, path, &mut wire, answers),
            None => refuse(&CliFault::CannotOpen(path), answers),
        },
        Command::Withdraw => withdraw(session, answers),
        Command::Externals => {
            put_externals(session, answers)?;
            Ok(Step::Done)
        }
        Command::Undefined => {
            put_undefined(session, answers)?;
            Ok(Step::Done)
        }
        Command::Link => match make_link(alloc, session, options, answers)? {
            Some(linked) => Ok(Step::ToStore(linked)),
            None => Ok(Step::Refused),
        },
        Command::Bad => {
            put_line(b"bad command", b"", answers)?;
            Ok(Step::Refused)
        }
    }
}
