//! What is reported of a link.
ghost use Rattle.std.specs.Prelude.{◌≡◌, bytes_eq, position, Some, IfOk};
ghost use Rattle.link_session.specs.{Labelled.objects, Mentions.externals, Undo.image_of};
ghost use Rattle.link_out.specs.internal.Entries.{text_address, text_address_at};
ghost use Rattle.link_out.specs.{function.Reports.{entry_word, entry_found_bad, report_of}, internal.InOrder.missing_among};
ghost use Rattle.link_out.specs.{internal.Planned.plan_in, Outcomes.report_names};
ghost use Rattle.link_out.specs.internal.FromCells as from_cells;

use crate::finals::Final;
use crate::linked::Report;
use crate::plan::Plan;
use crate::reserved_names::{is_missing, reserved_taken};
use aout_core::{Name, Segment};
use link_session::Session;
use std::alloc::{AllocError, Global};

/// The entry point of a program.
#[derive(Clone, Copy)]
pub(crate) struct EntryPoint {
    /// The address of the name that is asked for, if that is in text, and else 0.
    pub(crate) address: u16,
    /// The name that is asked for, if it is not in text.
    pub(crate) bad: Option<Name>,
}

/// The names that are undefined and not reserved, by first mention. An error: out of memory.
fn missing(alloc: Global, session: &Session) -> Result<Vec<Name>, AllocError>
    ensures { IfOk result (λ names. names.items ≡ missing_among (image_of session.now).externals) }
{
    session
        .externals()
        .filter(|(name, state)| is_missing(name, *state))
        .map(|(name, _)| name)
        .collect(alloc)
}

/// The undefined names that are reported: none if relocation is kept. An error: out of memory.
fn undefined_names(alloc: Global, plan: &Plan<'_>) -> Result<Vec<Name>, AllocError>
    ensures { IfOk result (λ names. names.items ≡ (report_of (plan_in plan.now)).undefined) }
{
    if plan.options.is_relocatable() {
        return Ok(Vec::new(alloc));
    }
    missing(alloc, plan.session)
}

/// The address of a name that is bound to text.
fn text_address(last: &Final) -> Option<u16>
    ensures { result ≡ text_address (Some last.now) }
{
    match last.bound {
        Some(Segment::TextSeg) => Some(last.address),
        _ => None,
    }
}

/// The address of a name that is an external and bound to text.
fn address_in_text(session: &Session, finals: &[Final], name: &Name) -> Option<u16>
    ensures { result ≡ text_address_at finals.now (position (bytes_eq name.now)
        (externals session.now.forced (objects session.now.entries))) }
{
    let index = session.find(name)?;
    text_address(finals.get(index as usize)?)
}

/// The entry point of a link.
pub(crate) fn entry_point(plan: &Plan<'_>, finals: &[Final]) -> EntryPoint
    requires { finals.now ≡ from_cells.finals (plan_in plan.now) }
    ensures address { result.address ≡ entry_word (plan_in plan.now) plan.now.options.now.entry }
    ensures bad { result.bad ≡ entry_found_bad (plan_in plan.now) plan.now.options.now.entry }
{
    let Some(name) = plan.options.entry() else {
        return EntryPoint {
            address: 0,
            bad: None,
        };
    };
    match address_in_text(plan.session, finals, &name) {
        Some(address) => EntryPoint { address, bad: None },
        None => EntryPoint {
            address: 0,
            bad: Some(name),
        },
    }
}

/// The report of a link. An error: out of memory.
pub(crate) fn report_of(
    alloc: Global,
    plan: &Plan<'_>,
    finals: &[Final],
) -> Result<Report, AllocError>
    requires { finals.now ≡ from_cells.finals (plan_in plan.now) }
    ensures { IfOk result (λ report. report_names report ≡ report_of (plan_in plan.now)) }
{
    Ok(Report {
        multiples: plan.session.multiples().to_vec(alloc)?,
        reserved: reserved_taken(alloc, plan.session)?,
        entry_bad: entry_point(plan, finals).bad,
        undefined: undefined_names(alloc, plan)?,
    })
}
