//! The session as a command, over any `FileSystem`: each line of a script is answered before the next one is asked for.
ghost use Rattle.std.specs.Prelude.{◌≡◌, ◌↔◌, Err, IfErr, IsTrue, string_bytes};
ghost use Rattle.aout_core.specs.{Refusals.device_fault, Wires.IsPassedOn};
ghost use Rattle.link_session.specs.Sessions.{nothing_kept};
ghost use Rattle.v7tools.specs.{declared.fault.CliFault.TheVariants.{ScriptFailed, WriteFailed}, LineRuns.status_after, SessionRuns.IsSessionRun};
ghost use Rattle.v7tools.specs.SessionSteps.{verdict_of};
ghost use Rattle.v7tools.specs.internal.SessionParts.{AnswersLine, IsCommandOf, IsPlainLine, PassesOn, TakesAddition};
ghost use Rattle.command_words.specs.{Scripts.to_link, ScriptAnswers.{asked_by, begun}};

use crate::fault::CliFault;
use crate::session::commands::{Command, Step};
use crate::session::link_answers::link_answer;
use crate::session::script::Script;
use crate::session::steps::{add, make_link, refuse, step};
use crate::setting::Setting;
use crate::status::Status;
use aout_core::{BufferedWrite, Wire};
use command_words::Line;
use host::FileSystem;
use link_session::{Forced, Session};
use std::io::{Read, Write};

/// What a line asks a step to do. A line that opens or stores a file is answered by `add_at` or `answer_link`.
fn command_of<R>(line: Line) -> Command<R>
    requires { IsPlainLine line }
    ensures { IsCommandOf line result }
{
    match line {
        Line::Add(_) | Line::Link(_) => unreachable!(),
        Line::Withdraw => Command::Withdraw,
        Line::Externals => Command::Externals,
        Line::Undefined => Command::Undefined,
        Line::Bad => Command::Bad,
    }
}

/// Adds the file at a path, which is opened before and closed after that, and answers with its label.
fn add_at<O: FileSystem, W: Write>(
    setting: &Setting<'_>,
    file_system: &mut O,
    session: &mut Session,
    path: String,
    answers: &mut Wire<W>,
) -> Result<Step, CliFault>
    ensures write_failed { IfErr result (λ fault. fault ≡ WriteFailed device_fault) }
    ensures latched { IsTrue answers.old.has_failed → (answers.new ≡ answers.old) }
    ensures step { TakesAddition W.contents setting.now.options.now (string_bytes path)
        (O.history file_system.old) (O.history file_system.new) session.old session.new
        result answers.old answers.new }
{
    let Ok(source) = file_system.open(path.as_str()) else {
        return refuse(&CliFault::CannotOpen(path), answers);
    };
    let mut wire = Wire::new(source);
    let taken = add(setting.alloc, session, path, &mut wire, answers);
    file_system.close(wire);
    taken
}

/// The status of a line by what its step did: 0 if it was done.
fn status_of(step: Step) -> Status
    ensures { result ≡ status_after (verdict_of step) }
{
    match step {
        Step::Done => Status::new(0),
        Step::Refused | Step::ToStore(_) => Status::new(1),
    }
}

/// Links what the session keeps, stores the file at a path and answers.
fn answer_link<O: FileSystem, W: Write>(
    setting: &Setting<'_>,
    file_system: &mut O,
    session: &Session,
    path: &str,
    answers: &mut Wire<W>,
) -> Result<Status, CliFault>
    ensures latched { IsTrue answers.old.has_failed → (answers.new ≡ answers.old) }
    ensures run { AnswersLine W.contents setting.now.options.now
        (to_link path.now) session.now session.now
        (O.history file_system.old) (O.history file_system.new) result answers.old answers.new }
{
    match make_link(setting.alloc, session, setting.options, answers)? {
        Some(linked) => {
            let stored = file_system.store(path, &linked.file);
            let status = link_answer(&linked, path, stored, answers)?;
            Ok(Status::new(status))
        }
        None => Ok(Status::new(1)),
    }
}

/// Passes on an answer that was written, and returns the status of its line.
fn pass_on<W: BufferedWrite>(status: Status, answers: &mut Wire<W>) -> Result<Status, CliFault>
    ensures latched { IsTrue answers.old.has_failed → (answers.new ≡ answers.old) }
    ensures run { PassesOn W.contents status result answers.old answers.new }
    ensures passed { IsPassedOn W.waiting answers.new }
{
    answers.pass_on()?;
    Ok(status)
}

/// Does what a line asks for, answers it and passes the answer on. It returns the status of that: 0, or 1 if it was refused
/// or its link had something to report.
fn answer_line<O: FileSystem, W: BufferedWrite>(
    setting: &Setting<'_>,
    file_system: &mut O,
    session: &mut Session,
    line: Line,
    answers: &mut Wire<W>,
) -> Result<Status, CliFault>
    ensures latched { IsTrue answers.old.has_failed → (answers.new ≡ answers.old) }
    ensures run { AnswersLine W.contents setting.now.options.now
        (asked_by line) session.old session.new
        (O.history file_system.old) (O.history file_system.new) result answers.old answers.new }
    ensures passed { IsPassedOn W.waiting answers.new }
{
    match line {
        Line::Link(path) => {
            let status = answer_link(setting, file_system, session, path.as_str(), answers)?;
            pass_on(status, answers)
        }
        Line::Add(path) => {
            let taken = add_at(setting, file_system, session, path, answers)?;
            pass_on(status_of(taken), answers)
        }
        other => {
            let command: Command<O::Source> = command_of(other);
            let taken = step(setting.alloc, session, setting.options, command, answers)?;
            pass_on(status_of(taken), answers)
        }
    }
}

/// Answers the lines of a script of which none was read, one after another.
fn answer_lines<O: FileSystem, R: Read + Drop, W: BufferedWrite>(
    setting: &Setting<'_>,
    file_system: &mut O,
    session: &mut Session,
    script: &mut Script<R>,
    answers: &mut Wire<W>,
) -> Result<Status, CliFault>
    requires empty { session.old ≡ nothing_kept session.old.forced }
    requires fresh { script.old ≡ begun script.old.wire }
    ensures failed { (result ≡ Err ScriptFailed) ↔ IsTrue script.new.wire.has_failed }
    ensures run { IsSessionRun W.contents session.old.forced setting.now.options.now
        (R.remaining script.old.wire.device)
        (O.history file_system.old) (O.history file_system.new) result answers.old answers.new }
    ensures passed { IsPassedOn W.waiting answers.old → IsPassedOn W.waiting answers.new }
{
    let mut status = Status::new(0);
    // a script ends at its limit of lines, long before this
    for _ in 0..u64::MAX {
        let Some(line) = script.next_line()? else {
            return Ok(status);
        };
        let answered = answer_line(setting, file_system, session, line, answers)?;
        status = status.max(answered);
    }
    unreachable!()
}

/// Answers the script that a reader gives, on a new session with these forced names.
pub(crate) fn answer_script<O: FileSystem, R: Read + Drop, W: BufferedWrite>(
    setting: &Setting<'_>,
    file_system: &mut O,
    forced: &Forced,
    reader: R,
    answers: &mut Wire<W>,
) -> Result<Status, CliFault>
    ensures run { IsSessionRun W.contents forced.now setting.now.options.now (R.remaining reader)
        (O.history file_system.old) (O.history file_system.new) result answers.old answers.new }
    ensures passed { IsPassedOn W.waiting answers.old → IsPassedOn W.waiting answers.new }
{
    let mut session = Session::with_forced(setting.alloc, forced)?;
    let mut script = Script::new(setting.alloc, Wire::new(reader))?;
    answer_lines(setting, file_system, &mut session, &mut script, answers)
}
