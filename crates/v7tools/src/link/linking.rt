//! The link of files.
ghost use Rattle.std.specs.Prelude.{◌≡◌, ◌↔◌, Some, true, IfErr, IfOk, IsTrue};
ghost use Rattle.aout_core.specs.WellFormed.{IsWellFormed};
ghost use Rattle.link_session.specs.Labelled.{objects};
ghost use Rattle.link_out.specs.function.Link.{link};
ghost use Rattle.v7tools.specs.internal.InputParts.{AreTaken, IsFinalLink, stopped_at, without_session, without_wire};
ghost use Rattle.v7tools.specs.LinkAnswers.{inputs_of, IsDeviceFault, IsLinkOf};

use crate::fault::CliFault;
use crate::link::additions::add_file;
use aout_core::Wire;
use link_out::{Linked, Options, finish};
use link_session::{Forced, Session};
use std::alloc::Global;
use std::io::Read;

/// Reads, checks and adds the inputs in their order, each before the next one. The wire of the input that is refused comes
/// back with the fault, and the session keeps the inputs before it.
fn take_inputs<R: Read + Drop>(
    alloc: Global,
    session: &mut Session,
    inputs: Vec<(String, Wire<R>)>,
) -> Result<(), (CliFault, Wire<R>)>
    ensures device { IfErr result (λ refused.
        IsDeviceFault refused.0 ↔ IsTrue refused.1.has_failed) }
    ensures forced { session.new.forced ≡ session.old.forced }
    ensures value { AreTaken session.old session.new (inputs_of R.remaining inputs.items)
        (without_wire result) }
{
    for (path, mut wire) in inputs {
        if let Err(fault) = add_file(alloc, session, path, &mut wire) {
            return Err((fault, wire));
        }
    }
    Ok(())
}

/// Links what is kept after the last input. `Memory` is returned only if there is a link.
#[tactic(auto, using(crate::proofs::AnswerLemmas::by_final))]
fn link_inputs(alloc: Global, session: &Session, options: &Options) -> Result<Linked, CliFault>
    ensures value { IsFinalLink
        (link session.now.forced (objects session.now.entries) options.now) result }
    ensures object { options.now.relocatable ≡ true
        → IfOk result (λ linked. IsWellFormed linked.file) }
{
    Ok(finish(alloc, session, options)?)
}

/// The link that `ld` makes, and its session: a program that ends soon need not free each of its lists. With a fault comes the wire of the
/// input at which the link stopped, if it did at one.
pub(crate) fn ld_of_session<R: Read + Drop>(
    alloc: Global,
    inputs: Vec<(String, Wire<R>)>,
    forced: &Forced,
    options: &Options,
) -> Result<(Linked, Session), (CliFault, Option<Wire<R>>)>
    ensures device { IfErr result (λ refused.
        IsDeviceFault refused.0 ↔ (stopped_at refused.1 ≡ Some true)) }
    ensures value { IsLinkOf forced.now options.now (inputs_of R.remaining inputs.items)
        (without_session result) }
    ensures object { options.now.relocatable ≡ true
        → IfOk result (λ made. IsWellFormed made.0.file) }
{
    let mut session = match Session::with_forced(alloc, forced) {
        Ok(session) => session,
        Err(refused) => return Err((CliFault::from(refused), None)),
    };
    if let Err((fault, wire)) = take_inputs(alloc, &mut session, inputs) {
        return Err((fault, Some(wire)));
    }
    match link_inputs(alloc, &session, options) {
        Ok(linked) => Ok((linked, session)),
        Err(fault) => Err((fault, None)),
    }
}

/// Links the files of the inputs, pairs of a path and a reader, in their order, after the forced names. Each is
/// read, checked and added before the next one is read, and a refusal ends the link. With relocation the file is an
/// object, which can be linked again. (ld(1))
///
/// Memory may run out for forced names, for what the header of an input announces, for an object that is within all
/// limits, or for a link that is not refused. The result does not reveal which.
///
/// Errors, with the path of the first input that is refused: `BadFile`, 3, if it is not a file or its device failed, now or
/// before; `BadObject`, 4, if it is not an object; `NotAdded`, 5, if it passes a limit. After the last input: `NotLinked`,
/// 6, if there is no link. `Memory`, 9, if memory runs out.
pub fn ld<R: Read + Drop>(
    alloc: Global,
    inputs: Vec<(String, Wire<R>)>,
    forced: &Forced,
    options: &Options,
) -> Result<Linked, CliFault>
    ensures value { IsLinkOf forced.now options.now (inputs_of R.remaining inputs.items) result }
    ensures object { options.now.relocatable ≡ true
        → IfOk result (λ linked. IsWellFormed linked.file) }
{
    match ld_of_session(alloc, inputs, forced, options) {
        Ok((linked, _)) => Ok(linked),
        Err((fault, _)) => Err(fault),
    }
}
