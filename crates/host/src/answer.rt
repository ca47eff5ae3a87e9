//! What a program answers: what it writes, and its status.
ghost use Rattle.std.specs.{Prelude.{◌≡◌, ◌++◌, None, Some, codes, false, true, IfOk}, Option.option_map};
ghost use Rattle.aout_core.specs.{Refusals.refused, Wires.Writes};
ghost use Rattle.host.specs.declared.answer.Fault.TheVariants.{Memory};
ghost use Rattle.host.specs.{Answers.{Ends, Gives, Stops, answer_in, only_errors, output_in, status_in}, Answer.Answer};
ghost use Rattle.host.specs.{Programs.AnswersStored, Sources.is_kept};

use crate::file_system::{Stored, stored_text};
use crate::outputs::Outputs;
use crate::paths::Path;
use aout_core::{DeviceFault, Refused, Wire};
use std::alloc::{AllocError, AllocFailed, Global};
use std::fmt::Display;
use std::io::Write;
use std::marker::Model;
use texts::Text;

/// What a program writes at its end, and its status.
#[derive(Drop)]
pub struct Answer {
    /// For standard output.
    pub output: Vec<u8>,
    /// For standard error.
    pub errors: Vec<u8>,
    /// The status.
    pub status: u8,
}

impl Model for Answer {
    ghost use Rattle.host.specs.Answer as spec;

    ghost Value = { spec.Answer };

    ghost view = { λ a. record { output = a.output.items; errors = a.errors.items; status = a.status } };
}

/// Why a program does not go on: it has its answer, or memory ran out.
#[derive(Drop)]
pub enum Fault {
    /// The answer says why.
    Answered(Answer),
    /// Memory ran out.
    Memory(Refused),
}

impl From<AllocError> for Fault {
    ghost from_gives = { λ _ fault. fault ≡ Memory refused };

    fn from(error: AllocError) -> Fault {
        Fault::Memory(Refused::from(error))
    }
}

impl<T: Drop> From<AllocFailed<T>> for Fault {
    ghost from_gives = { λ _ fault. fault ≡ Memory refused };

    fn from(error: AllocFailed<T>) -> Fault {
        Fault::Memory(Refused::from(error))
    }
}

/// The answer with a text for standard error, and a status.
pub fn error_answer(alloc: Global, errors: Text, status: u8) -> Result<Answer, AllocError>
    ensures { IfOk result (λ a. (errors.is_cut ≡ false) × (a ≡ only_errors errors.bytes status)) }
{
    Ok(Answer {
        output: Vec::new(alloc),
        errors: errors.finish()?,
        status,
    })
}

/// The fault in which a program says a text of a path: `PROGRAM: PATH: TEXT`, with the status 2.
pub fn fault_at<D: Display + Drop>(alloc: Global, program: &str, path: &str, text: D) -> Fault
    ensures { Stops true 2 result }
{
    let mut line = Text::new(alloc);
    line.say(format_args!("{program}: {}: {text}\n", Path(path)));
    match error_answer(alloc, line, 2) {
        Ok(answer) => Fault::Answered(answer),
        Err(error) => Fault::from(error),
    }
}

/// The answer to arguments that are refused: how the program is called, and why they are refused.
pub fn refused_answer<D: Display + Drop>(
    alloc: Global,
    program: &str,
    usage: &str,
    reason: D,
) -> Result<Answer, AllocError>
    ensures { IfOk result (λ a. Ends 2 a) }
{
    let mut errors = Text::new(alloc);
    errors.say(format_args!("{usage}{program}: {reason}\n"));
    error_answer(alloc, errors, 2)
}

/// The answer after a file was to be stored at a path.
///
/// Errors: `Answered` if the file was not stored, with the line that says why; `Memory` if memory runs out for that line.
pub fn answer_stored(
    alloc: Global,
    program: &str,
    path: &str,
    stored: Stored,
    answer: Answer,
) -> Result<Answer, Fault>
    ensures { AnswersStored answer (is_kept stored) result }
{
    match stored_text(stored) {
        None => Ok(answer),
        Some(why) => Err(fault_at(alloc, program, path, why)),
    }
}

/// The answer of a program, if memory did not run out for it.
fn answer_in(answer: &Result<Answer, Fault>) -> Option<&Answer>
    ensures { option_map (λ a. a.now) result ≡ answer_in answer.now }
{
    match answer {
        Ok(answer) | Err(Fault::Answered(answer)) => Some(answer),
        Err(Fault::Memory(_)) => None,
    }
}

/// Writes what an answer has for standard output.
fn put_output<W: Write>(found: Option<&Answer>, output: &mut Wire<W>) -> Result<(), DeviceFault>
    ensures { Writes W.contents result output.old output.new (output_in (option_map (λ a. a.now) found.entry)) }
{
    match found {
        Some(answer) => output.put(&answer.output),
        None => output.put(b""),
    }
}

/// Writes what goes to standard error: the errors of an answer, or a line if it could not be written or there is none.
fn put_errors<E: Write>(
    program: &str,
    is_failed: bool,
    found: Option<&Answer>,
    error: &mut Wire<E>,
) -> Result<(), DeviceFault>
    ensures said { (answer : Answer) → option_map (λ a. a.now) found.entry ≡ Some answer → is_failed ≡ false
        → Writes E.contents result error.old error.new answer.errors }
    ensures memory { option_map (λ a. a.now) found.entry ≡ None → is_failed ≡ false
        → Writes E.contents result error.old error.new (program.now ++ codes ": no memory\n") }
{
    match found {
        _ if is_failed => error.put_both(program.as_bytes(), b": write error\n"),
        Some(answer) => error.put(&answer.errors),
        None => error.put_both(program.as_bytes(), b": no memory\n"),
    }
}

fn status_in(is_failed: bool, found: Option<&Answer>) -> u8
    ensures { result ≡ status_in is_failed (option_map (λ a. a.now) found.entry) }
{
    match found {
        Some(answer) if !is_failed => answer.status,
        _ => 2,
    }
}

/// Writes the answer of a program, and returns the status. If standard output fails, a line on standard error says so in place of
/// what the answer has for it, and the status is 2. If there is no memory for an answer, a line says that.
pub fn give<W: Write, E: Write>(
    program: &str,
    answer: &Result<Answer, Fault>,
    outputs: &mut Outputs<W, E>,
) -> u8
    ensures { Gives W.contents E.contents (answer_in answer.now)
        outputs.old.output outputs.new.output outputs.old.error outputs.new.error result }
{
    let found = answer_in(answer);
    let is_failed = put_output(found, &mut outputs.output).is_err();
    let _ = put_errors(program, is_failed, found, &mut outputs.error);
    status_in(is_failed, found)
}
