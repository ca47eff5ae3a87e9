//! The externals of a link, also of one that is refused.
ghost use Rattle.std.specs.Prelude.{◌≡◌, ◌↔◌, ◌<◌, IfOk, IfSome, IsNone};
ghost use Rattle.link_out.specs.{function.Plans.plan_of, function.Tables.external_rows};

use crate::finals::finals_of;
use crate::linker::LAST_ADDRESS;
use crate::plan::Plan;
use crate::table::put_externals;
use aout_core::Symbol;
use link_session::Session;
use std::alloc::{AllocError, Global};
use tool_options::Options;

/// The externals of the link of the objects that a session keeps, by first mention: each as the symbol table of `finish` has it,
/// with its type and its address, or its size if it is not bound. The symbols that the options keep make no difference, and
/// neither does a table or a symbol number that `finish` refuses. `None` if the end of bss would pass 65,535: then there are no
/// addresses. (ld(1))
///
/// An error: out of memory.
pub fn link_externals(
    alloc: Global,
    session: &Session,
    options: &Options,
) -> Result<Option<Vec<Symbol>>, AllocError>
    ensures rows { IfOk result (λ list.
        IfSome list (λ rows. rows.items ≡ external_rows (plan_of session.now options.now))) }
    ensures none { IfOk result (λ list.
        IsNone list ↔ (65535 < (plan_of session.now options.now).at.bss_end)) }
{
    let plan = Plan::of(session, options);
    if LAST_ADDRESS < plan.bases.bss_end {
        return Ok(None);
    }
    let finals = finals_of(alloc, &plan)?;
    let mut rows = Vec::with_capacity(alloc, session.external_count() as usize)?;
    put_externals(&mut rows, session, &finals);
    Ok(Some(rows))
}
