//! Runs: edits of a session in order, then the link of the objects that are left.
ghost use Rattle.std.specs.Prelude.{◌≡◌, ◌∷◌, ◌++◌, [], true, map, IfOk, OnOk};
ghost use Rattle.aout_core.specs.WellFormed.{IsWellFormed};
ghost use Rattle.link_session.specs.{Edits.{addition, withdrawal, answers}, Sessions.labelled};
ghost use Rattle.link_out.specs.{Runs.{change_of, link_after, IsRunOf}, internal.MadeEdits.{AreDone, IsDone}};

use crate::edit::{Edit, Reply, RunFault};
use crate::linked::Linked;
use crate::linker::finish;
use aout_core::Object;
use link_session::{AddFault, Session};
use std::alloc::{AllocError, Global};
use tool_options::{Forced, Options};

/// Adds an object, or refuses it. An error: out of memory.
#[tactic(auto, using(crate::proofs::RunLemmas::by_edit))]
fn add_or_refuse(session: &mut Session, label: String, object: Object) -> Result<Reply, AllocError>
    ensures { IfOk result (IsDone session.old session.new (addition (labelled label object))) }
{
    let Err(refusal) = session.add(label, object) else {
        return Ok(Reply::Added);
    };
    match refusal.cause {
        AddFault::Memory(refused) => Err(AllocError::from(refused)),
        limit => Ok(Reply::Refused(limit)),
    }
}

/// Takes the last object away, if there is one.
#[tactic(auto, using(crate::proofs::RunLemmas::by_edit))]
fn withdraw_last(session: &mut Session) -> Reply
    ensures { IsDone session.old session.new withdrawal result }
{
    match session.withdraw() {
        Some((label, _)) => Reply::Withdrew(label),
        None => Reply::Nothing,
    }
}

/// Makes an edit of a session, and replies to it. An error: out of memory.
fn reply_to(session: &mut Session, edit: Edit) -> Result<Reply, AllocError>
    ensures { IfOk result (IsDone session.old session.new (change_of edit)) }
{
    match edit {
        Edit::Add(label, object) => add_or_refuse(session, label, object),
        Edit::Withdraw => Ok(withdraw_last(session)),
    }
}

/// Puts a reply after the others, whatever it is. An error: out of memory.
fn put_reply(replies: &mut Vec<Reply>, reply: Reply) -> Result<(), AllocError>
    ensures { OnOk result (replies.new.items ≡ replies.old.items ++ reply ∷ []) }
{
    replies.push(reply)?;
    Ok(())
}

/// Makes the edits in order, with a reply to each. An error: out of memory.
fn replies_to(
    alloc: Global,
    session: &mut Session,
    edits: Vec<Edit>,
) -> Result<Vec<Reply>, AllocError>
    ensures { IfOk result (λ replies. AreDone session.old session.new
        (map change_of edits.items) replies.items) }
{
    let mut replies = Vec::new(alloc);
    for edit in edits {
        let reply = reply_to(session, edit)?;
        put_reply(&mut replies, reply)?;
    }
    Ok(replies)
}

/// Makes the edits in order, from a session with these forced names and no objects, and links the objects that are left:
/// a reply to each edit, and the link. (ld(1); edits are an own choice)
///
/// Errors: `Memory`, 1, if memory runs out in any step; `Link`, 2, if the link is refused for another cause.
pub fn run(
    alloc: Global,
    forced: &Forced,
    edits: Vec<Edit>,
    options: &Options,
) -> Result<(Vec<Reply>, Linked), RunFault>
    ensures value { let made = map change_of edits.items
        in IsRunOf result (answers forced.now made) (link_after forced.now made options.now) }
    ensures object { options.now.relocatable ≡ true → IfOk result (λ run. IsWellFormed run.1.file) }
{
    let mut session = Session::with_forced(alloc, forced)?;
    let replies = replies_to(alloc, &mut session, edits)?;
    let linked = finish(alloc, &session, options)?;
    Ok((replies, linked))
}
