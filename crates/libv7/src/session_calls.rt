//! Calls on a session that a handle keeps.
ghost use Rattle.std.specs.Prelude.{◌≡◌, ◌≢◌, Ok, Err, IsOk, IfOk, IfErr, OnOk, OnErr};
ghost use Rattle.aout_core.specs.Refusals.{refused};
ghost use Rattle.libv7.specs.SessionAnswers.{AddsBytes, HasJournal, MayRunOutToAdd, MayRunOutToLink, TakesLast, kept_run, last_in};
ghost use Rattle.libv7.specs.{SessionAnswers.{shown_in, taken_in}, RunAnswers.results_of};
ghost use Rattle.libv7.specs.declared.cause.Cause.TheVariants.{Memory};
ghost use Rattle.libv7.specs.SessionLeft.{Begins, Both, Keeps, LinkMayRunOut, beginning, kept_in, of_session, kept_by};
ghost use Rattle.libv7.specs.{Left.{IsGiven, Unplaced}, RunLeft.results_or};

use crate::cause::{Cause, Refusal};
use crate::decoding::first_object;
use crate::output::LinkOutput;
use crate::requests::{Request, forced_names, tool_options};
use crate::run::unread;
use crate::run_call::{given_of, link_kept};
use crate::session_handle::Handle;
use crate::session_json::state_of;
use link_session::Session;
use std::alloc::{AllocError, Global};

/// Begins a session of no objects with forced names, 8 bytes each, filled up with NULs.
///
/// Errors, the first that applies: `SessionOpen`, 10; `CutNames`, 4, and `ManyNames`, 5; `Memory`, 50, if memory runs out.
pub(crate) fn begin(alloc: Global, handle: &mut Handle, forced: &[u8]) -> Result<(), Refusal>
    ensures ok { OnOk result (Begins forced.now (kept_by handle.old) (kept_by handle.new)) }
    ensures err { IfErr result (λ r.
        r.cause ≢ Memory refused → beginning forced.now (kept_by handle.old) ≡ Err r) }
    ensures memory { IfErr result (λ r. r.cause ≡ Memory refused
        → (r.place ≡ 0) × IsOk (beginning forced.now (kept_by handle.old))) }
    ensures unchanged { OnErr result (kept_by handle.new ≡ kept_by handle.old) }
{
    if handle.is_open != 0 {
        return Err(Refusal::from(Cause::SessionOpen));
    }
    let names = forced_names(forced)?;
    let session = Session::with_forced(alloc, &names)?;
    match Box::new(alloc, session) {
        Ok(session) => {
            handle.put(session);
            Ok(())
        }
        Err(error) => Err(Refusal::from(AllocError::from(error))),
    }
}

/// Adds the object that the bytes begin with. An error leaves the session as it was. (ld(1))
///
/// Errors, the first that applies: `BadFile`, 11 to 14, if the bytes do not begin with a file; `BadObject`, 21 to 24, if it is not an
/// object; `NotAdded`, 31 to 34, if it passes a limit. `Memory`, 50, if memory runs out for a whole file, or for an object that is
/// accepted.
pub(crate) fn add_bytes(alloc: Global, session: &mut Session, bytes: &[u8]) -> Result<(), Cause>
    ensures ok { OnOk result (AddsBytes bytes.now session.old session.new) }
    ensures err { IfErr result (λ cause. cause ≢ Memory refused → taken_in bytes.now session.old ≡ Err cause) }
    ensures memory { IfErr result (λ cause.
        cause ≡ Memory refused → MayRunOutToAdd bytes.now session.old) }
    ensures unchanged { OnErr result (session.new ≡ session.old) }
{
    let object = first_object(alloc, bytes)?;
    match session.add(String::new(alloc), object) {
        Ok(()) => Ok(()),
        Err(refused) => Err(Cause::from(refused.cause)),
    }
}

/// The same for a session that a handle keeps.
pub(crate) fn add(alloc: Global, handle: &mut Handle, bytes: &[u8]) -> Result<(), Refusal>
    ensures ok { OnOk result (Both (AddsBytes bytes.now) (kept_by handle.old) (kept_by handle.new)) }
    ensures err { IfErr result (λ r.
        r.cause ≢ Memory refused → of_session (taken_in bytes.now) (kept_by handle.old) ≡ Err r) }
    ensures memory { IfErr result (λ r. r.cause ≡ Memory refused
        → (r.place ≡ 0) × Keeps (MayRunOutToAdd bytes.now) (kept_by handle.old)) }
    ensures unchanged { OnErr result (kept_by handle.new ≡ kept_by handle.old) }
{
    match handle.take(alloc) {
        None => Err(Refusal::from(Cause::NoSession)),
        Some(kept) => {
            let mut session = kept;
            let added = add_bytes(alloc, &mut session, bytes);
            handle.put(session);
            Ok(added?)
        }
    }
}

/// Takes the object away that was added last.
///
/// Errors: `NoSession`, 8; `NothingKept`, 35, if there is no object.
#[tactic(auto, using(crate::proofs::SessionLemmas::taken_last))]
pub(crate) fn withdraw(alloc: Global, handle: &mut Handle) -> Result<(), Refusal>
    ensures ok { OnOk result (Both TakesLast (kept_by handle.old) (kept_by handle.new)) }
    ensures err { IfErr result (λ r. of_session last_in (kept_by handle.old) ≡ Err r) }
    ensures memory { IfErr result (λ r. r.cause ≡ Memory refused → (r.place ≡ 0) × ⊥) }
    ensures unchanged { OnErr result (kept_by handle.new ≡ kept_by handle.old) }
{
    match handle.take(alloc) {
        None => Err(Refusal::from(Cause::NoSession)),
        Some(kept) => {
            let mut session = kept;
            let last = session.withdraw();
            handle.put(session);
            match last {
                Some(_) => Ok(()),
                None => Err(Refusal::from(Cause::NothingKept)),
            }
        }
    }
}

/// What the session shows.
pub(crate) fn state(alloc: Global, handle: &mut Handle) -> Result<Vec<u8>, Refusal>
    ensures ok { IfOk result (λ state.
        of_session shown_in (kept_by handle.old) ≡ Ok state.items) }
    ensures err { IfErr result (λ r.
        r.cause ≢ Memory refused → of_session shown_in (kept_by handle.old) ≡ Err r) }
    ensures memory { IfErr result (λ r. r.cause ≡ Memory refused
        → (r.place ≡ 0) × IsOk (of_session shown_in (kept_by handle.old))) }
    ensures journal { IfOk result (λ _. Keeps HasJournal (kept_by handle.old)) }
    ensures unchanged { kept_by handle.new ≡ kept_by handle.old }
{
    match handle.take(alloc) {
        None => Err(Refusal::from(Cause::NoSession)),
        Some(session) => {
            let state = state_of(alloc, &session);
            handle.put(session);
            Ok(state?)
        }
    }
}

/// Links what a session keeps by the options and the entry point of a request, and returns what is wanted of the report, but for the
/// objects of what is reported. (ld(1))
///
/// Errors, the first that applies: `NoOption`, 1, `Excluded`, 2, and `LongName`, 3, if the options or the name of the entry point are
/// wrong; `NotLinked`, 41 to 43, if there is no link. `Memory`, 50, if memory runs out for the link.
#[tactic(auto, using(crate::proofs::MemoryLemmas::there_is_one))]
fn link_session(
    alloc: Global,
    session: &Session,
    request: &Request<'_>,
) -> Result<LinkOutput, Cause>
    ensures ok { IfOk result (λ given. kept_run request.now.wants request.now.options request.now.entry.now
        session.now ≡ Ok (results_of given)) }
    ensures err { IfErr result (λ cause. cause ≢ Memory refused
        → kept_run request.now.wants request.now.options request.now.entry.now session.now ≡ Err cause) }
    ensures memory { IfErr result (λ cause. cause ≡ Memory refused
        → MayRunOutToLink request.now.options request.now.entry.now session.now) }
{
    let options = tool_options(request.options, request.entry)?;
    let linked = link_kept(alloc, session, &options)?;
    Ok(given_of(alloc, request.wants, &linked, Vec::new(alloc))?)
}

/// The link that is asked for, by a caller with a result of this size.
#[tactic(auto, using(crate::proofs::SessionLeftLemmas::by_link))]
pub(crate) fn link_for(
    alloc: Global,
    handle: &mut Handle,
    request: &Request<'_>,
    size: usize,
) -> Result<LinkOutput, Refusal>
    ensures given { IsGiven (kept_in (kept_by handle.old) request.now size)
        (Unplaced (LinkMayRunOut (kept_by handle.old) request.now size)) (results_or result) }
    ensures unchanged { kept_by handle.new ≡ kept_by handle.old }
{
    // neither the objects of what is reported nor a map
    if let Some(cause) = unread(request, size, 3) {
        return Err(Refusal::from(cause));
    }
    match handle.take(alloc) {
        None => Err(Refusal::from(Cause::NoSession)),
        Some(session) => {
            let given = link_session(alloc, &session, request);
            handle.put(session);
            Ok(given?)
        }
    }
}
