//! Objects that are stored.
ghost use Rattle.std.specs.Prelude.{IfOk};
ghost use Rattle.host.specs.Answers.{Ends, EndsOr};
ghost use Rattle.v7_from_gnu.specs.Runs.{IsStoring, StoresAll};

use crate::converting::Target;
use crate::lines::all_remarks;
use crate::program::NAME;
use gnu_objects::Locals;
use host::{Answer, Fault, FileSystem, Path, error_answer, stored_text};
use std::alloc::{AllocError, Global};
use texts::Text;

/// The answer with what is reported of names.
fn said(alloc: Global, remarks: &[u8]) -> Result<Answer, AllocError>
    ensures { IfOk result (λ a. Ends 0 a) }
{
    let mut text = Text::new(alloc);
    text.put_bytes(remarks);
    error_answer(alloc, text, 0)
}

/// The answer with what is reported of names, and the line of an object that is not stored.
fn not_stored(alloc: Global, remarks: &[u8], path: &str, why: &str) -> Result<Answer, Fault>
    ensures { EndsOr 2 result }
{
    let mut text = Text::new(alloc);
    text.put_bytes(remarks);
    text.say(format_args!("{NAME}: {}: {why}\n", Path(path)));
    Ok(error_answer(alloc, text, 2)?)
}

/// Stores the objects in order, up to the first that can't be stored. Without such one the answer is `done`.
fn store_each<O: FileSystem>(
    alloc: Global,
    file_system: &mut O,
    remarks: &[u8],
    targets: &[Target],
    done: Answer,
) -> Result<Answer, Fault>
    requires { Ends 0 done }
    ensures { IsStoring targets.now (O.history file_system.old) (O.history file_system.new) result }
{
    for target in targets {
        let path = target.source.to.as_str();
        let stored = file_system.store(path, target.object.file());
        if let Some(why) = stored_text(stored) {
            return not_stored(alloc, remarks, path, why);
        }
    }
    Ok(done)
}

/// Stores the objects, once there is memory for the answer. What becomes of names is reported with these locals.
pub(crate) fn store_all<O: FileSystem>(
    alloc: Global,
    file_system: &mut O,
    locals: Option<Locals>,
    targets: &[Target],
) -> Result<Answer, Fault>
    ensures { StoresAll targets.now (O.history file_system.old) (O.history file_system.new) result }
{
    let remarks = all_remarks(alloc, locals, targets)?;
    let done = said(alloc, &remarks)?;
    store_each(alloc, file_system, &remarks, targets, done)
}
