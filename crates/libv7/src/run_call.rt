//! A link of objects whose bytes are apart, with its report as lines and as a list.
ghost use Rattle.std.specs.Prelude.{◌≡◌, ◌≢◌, Ok, Err, IsOk, IfOk, IfErr};
ghost use Rattle.aout_core.specs.Refusals.{refused};
ghost use Rattle.link_session.specs.Labelled.{objects};
ghost use Rattle.link_out.specs.{Outcomes.{outcome_of, report_names}, Steps.refused_as, function.Link.link};
ghost use Rattle.libv7.specs.RunAnswers.{findings_if, lines_if, no_run, objects_run, output_with, parts_run, places_if};
ghost use Rattle.libv7.specs.{LinkAnswers.{each_of, taken_each}, MemoryWanted.{MayRunOutInLink, MayRunOutInParts}};
ghost use Rattle.libv7.specs.{RunAnswers.{results_of, run_output}, declared.cause.Cause.TheVariants.{Memory, NotLinked}};

use crate::cause::{Cause, Refusal};
use crate::encoding::{bytes_of, lines_of};
use crate::findings::{ReportedName, all_findings};
use crate::output::{LinkOutput, NO_HEAD, no_records};
use crate::parts::ObjectBytes;
use crate::places::{FindingPlace, places_of};
use crate::requests::has_bit;
use crate::session_calls::add_bytes;
use link_out::{Linked, Options, Report, finish};
use link_session::{Forced, Session};
use std::alloc::{AllocError, Global};

impl LinkOutput {
    /// Nothing but a status, for a link that is not made.
    pub fn nothing(alloc: Global) -> LinkOutput
        ensures { results_of result ≡ no_run }
    {
        LinkOutput {
            status: 1,
            file: Vec::new(alloc),
            report: Vec::new(alloc),
            findings: Vec::new(alloc),
            places: Vec::new(alloc),
            head: NO_HEAD,
            records: no_records(alloc),
        }
    }
}

/// The link of the objects in a session.
pub(crate) fn link_kept(
    alloc: Global,
    session: &Session,
    options: &Options,
) -> Result<Linked, Cause>
    ensures ok { IfOk result (λ linked.
        refused_as NotLinked (link session.now.forced (objects session.now.entries) options.now)
        ≡ Ok (outcome_of linked)) }
    ensures err { IfErr result (λ cause. cause ≢ Memory refused → refused_as NotLinked
        (link session.now.forced (objects session.now.entries) options.now) ≡ Err cause) }
    ensures memory { IfErr result (λ cause. cause ≡ Memory refused
        → IsOk (link session.now.forced (objects session.now.entries) options.now)) }
{
    Ok(finish(alloc, session, options)?)
}

/// The lines of a report, if they are wanted.
fn lines_if(alloc: Global, is_wanted: bool, report: &Report) -> Result<Vec<u8>, AllocError>
    ensures { IfOk result (λ lines. lines.items ≡ lines_if is_wanted (report_names report.now)) }
{
    if is_wanted {
        lines_of(alloc, report)
    } else {
        Ok(Vec::new(alloc))
    }
}

fn findings_if(
    alloc: Global,
    is_wanted: bool,
    report: &Report,
) -> Result<Vec<ReportedName>, AllocError>
    ensures { IfOk result (λ findings.
        findings.items ≡ findings_if is_wanted (report_names report.now)) }
{
    if is_wanted {
        all_findings(alloc, report)
    } else {
        Ok(Vec::new(alloc))
    }
}

/// The objects of what is reported, if they are wanted.
fn places_if(
    alloc: Global,
    is_wanted: bool,
    session: Session,
    report: &Report,
) -> Result<Vec<FindingPlace>, AllocError>
    ensures { IfOk result (λ places. places.items
        ≡ places_if is_wanted session.forced (objects session.entries) (report_names report.now)) }
{
    if is_wanted {
        places_of(alloc, session, report)
    } else {
        Ok(Vec::new(alloc))
    }
}

/// The bytes of a link, and what is wanted of its report, with these objects of what is reported.
pub(crate) fn given_of(
    alloc: Global,
    wants: u32,
    linked: &Linked,
    places: Vec<FindingPlace>,
) -> Result<LinkOutput, AllocError>
    ensures { IfOk result (λ given.
        results_of given ≡ output_with wants places.items (outcome_of linked.now)) }
{
    Ok(LinkOutput {
        status: linked.report.status(),
        file: bytes_of(alloc, &linked.file)?,
        report: lines_if(alloc, has_bit(wants, 1), &linked.report)?,
        findings: findings_if(alloc, has_bit(wants, 2), &linked.report)?,
        places,
        head: NO_HEAD,
        records: no_records(alloc),
    })
}

/// The same, with these objects if they are wanted.
pub(crate) fn result_of(
    alloc: Global,
    wants: u32,
    session: Session,
    linked: &Linked,
) -> Result<LinkOutput, AllocError>
    ensures { IfOk result (λ given. results_of given
        ≡ run_output wants session.forced (objects session.entries) (outcome_of linked.now)) }
{
    let places = places_if(alloc, has_bit(wants, 4), session, &linked.report)?;
    given_of(alloc, wants, linked, places)
}

/// Links what a session keeps.
#[tactic(auto, using(crate::proofs::MemoryLemmas::there_is_one))]
fn run_kept(
    alloc: Global,
    wants: u32,
    session: Session,
    options: &Options,
) -> Result<LinkOutput, Cause>
    ensures ok { IfOk result (λ given. objects_run wants session.forced options.now
        (objects session.entries) ≡ Ok (results_of given)) }
    ensures err { IfErr result (λ cause. cause ≢ Memory refused → objects_run wants session.forced
        options.now (objects session.entries) ≡ Err cause) }
    ensures memory { IfErr result (λ cause. cause ≡ Memory refused
        → IsOk (link session.forced (objects session.entries) options.now)) }
{
    let linked = link_kept(alloc, &session, options)?;
    Ok(result_of(alloc, wants, session, &linked)?)
}

/// A session with the object that each of the parts begins with, in their order, up to the first that is not taken.
pub(crate) fn take_each(
    alloc: Global,
    parts: &[ObjectBytes<'_>],
    forced: &Forced,
) -> Result<Session, Refusal>
    ensures forced { IfOk result (λ session. session.forced ≡ forced.now) }
    ensures ok { IfOk result (λ session.
        taken_each forced.now (each_of parts.now) ≡ Ok (objects session.entries)) }
    ensures err { IfErr result (λ r.
        r.cause ≢ Memory refused → taken_each forced.now (each_of parts.now) ≡ Err r) }
    ensures memory { IfErr result (λ r. r.cause ≡ Memory refused
        → MayRunOutInParts (taken_each forced.now) forced.now (each_of parts.now) r.place) }
{
    let mut session = Session::with_forced(alloc, forced)?;
    for (place, part) in parts.iter().enumerate() {
        match add_bytes(alloc, &mut session, part.bytes) {
            Ok(()) => {}
            Err(cause) => return Err(Refusal { cause, place }),
        }
    }
    Ok(session)
}

/// Links the object that each of the parts begins with, in their order, and returns what is wanted of the report. Each is read, checked
/// and added before the next one is read, and a refusal ends the link. The bytes after an object in its part are not looked at. (ld(1))
///
/// Errors, the first that applies: for the first object that is not taken, with the number of its part: `BadFile`, 11 to 14, if it is not
/// a file; `BadObject`, 21 to 24, if it is not an object; `NotAdded`, 31 to 34, if it passes a limit; then `NotLinked`, 41 to 43, if there
/// is no link of them. `Memory`, 50, if memory runs out for forced names, for a whole file, for an object that is accepted, or for a link.
#[tactic(auto, using(crate::proofs::MemoryLemmas::parts_not_taken))]
pub(crate) fn run_parts(
    alloc: Global,
    wants: u32,
    parts: &[ObjectBytes<'_>],
    forced: &Forced,
    options: &Options,
) -> Result<LinkOutput, Refusal>
    ensures ok { IfOk result (λ given.
        parts_run wants forced.now options.now (each_of parts.now) ≡ Ok (results_of given)) }
    ensures err { IfErr result (λ r. r.cause ≢ Memory refused
        → parts_run wants forced.now options.now (each_of parts.now) ≡ Err r) }
    ensures memory { IfErr result (λ r. r.cause ≡ Memory refused
        → MayRunOutInLink forced.now options.now (each_of parts.now) r.place) }
{
    let session = match take_each(alloc, parts, forced) {
        Ok(session) => session,
        Err(refusal) => return Err(refusal),
    };
    match run_kept(alloc, wants, session, options) {
        Ok(given) => Ok(given),
        Err(cause) => Err(Refusal { cause, place: 0 }),
    }
}
