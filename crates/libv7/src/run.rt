//! A link by one request, with one result: each is a struct that begins with its size.
ghost use Rattle.std.specs.Prelude.{◌≡◌, ◌<◌, ◌≤◌, true, false};
ghost use Rattle.libv7.specs.RunAnswers.{results_of};
ghost use Rattle.libv7.specs.RunLeft.{IsAnswer, answer_left, answered, asked_in, is_enough, is_short, left_in, output_left, unread};

use crate::answer::Answer;
use crate::buffers::{NO_ROOM, leave_items};
use crate::cause::{Cause, Refusal};
use crate::findings::ReportedName;
use crate::map::MapAnswer;
use crate::map_call::map_parts;
use crate::output::LinkOutput;
use crate::places::FindingPlace;
use crate::requests::{Request, forced_names, has_bit, tool_options};
use crate::run_call::run_parts;
use link_session::Forced;
use std::alloc::Global;
use tool_options::Options;

/// All wants.
const ALL: u32 = 15;
/// The size of a request.
const REQUEST: usize = 64;
/// The size of a result for a report that is wanted as lines.
const RESULT: usize = 72;
/// The size of a result for a report that is wanted as a list.
const LIST_RESULT: usize = 96;
/// The size of a result for the objects of what is reported.
const PLACES_RESULT: usize = 120;
/// The size of a result that has all fields.
const MAP_RESULT: usize = 288;

/// What is given. A caller may have a smaller struct, so what begins with `finding_count`, what begins with `place_count`, and `map`
/// are not touched unless the size has them.
#[repr(C)]
#[derive(Drop)]
pub struct RunAnswer<'a> {
    /// The size of the caller's struct in bytes.
    pub size: usize,
    /// Why nothing is given, as a number; 0 if something is.
    pub fault: u32,
    /// The index of the bad word, if the fault is in a word.
    pub word: u32,
    /// The number of the object or of the forced name that has the fault.
    pub place: usize,
    /// How many bytes there are for `file`.
    pub file_size: usize,
    /// How many bytes there are for `report`.
    pub report_size: usize,
    pub file: &'a mut [u8],
    pub report: &'a mut [u8],
    /// How many findings there are.
    pub finding_count: usize,
    pub findings: &'a mut [ReportedName],
    /// For how many findings there are objects.
    pub place_count: usize,
    pub places: &'a mut [FindingPlace],
    pub map: MapAnswer<'a>,
}

/// Whether a result of this size has the fields that these wants need.
fn is_enough(wants: u32, size: usize) -> bool
    ensures { result ≡ is_enough wants size }
{
    RESULT <= size
        && (!has_bit(wants, 2) || LIST_RESULT <= size)
        && (!has_bit(wants, 4) || PLACES_RESULT <= size)
        && (!has_bit(wants, 8) || MAP_RESULT <= size)
}

/// Why a request cannot be read, with a result of this size, by a call that has what wants up to `most` stand for.
pub(crate) fn unread(request: &Request<'_>, size: usize, most: u32) -> Option<Cause>
    ensures { result ≡ unread most request.now size }
{
    if request.size < REQUEST {
        Some(Cause::ShortStruct)
    } else if ALL < request.wants {
        Some(Cause::NoWant)
    } else if most < request.wants {
        Some(Cause::NotKept)
    } else if is_enough(request.wants, size) {
        None
    } else {
        Some(Cause::ShortStruct)
    }
}

/// The options and the forced names that are asked for, by a caller with a result of this size.
fn asked_of(request: &Request<'_>, size: usize) -> Result<(Options, Forced), Refusal>
    ensures { result ≡ asked_in request.now size }
{
    if let Some(cause) = unread(request, size, ALL) {
        return Err(Refusal::from(cause));
    }
    let options = tool_options(request.options, request.entry)?;
    let forced = forced_names(request.forced)?;
    Ok((options, forced))
}

/// The link that is asked for, by a caller with a result of this size. (ld(1))
///
/// Errors, the first that applies: those of `unread`; `NoOption`, 1, `Excluded`, 2, and `LongName`, 3, if the options or the name of the
/// entry point are wrong; `CutNames`, 4, and `ManyNames`, 5, if the forced names are wrong; then those of `map_parts` or `run_parts`.
#[tactic(auto, using(crate::proofs::RunLemmas::by_answer))]
pub(crate) fn answer_to(
    alloc: Global,
    request: &Request<'_>,
    size: usize,
) -> Result<LinkOutput, Refusal>
    ensures { IsAnswer request.now size result }
{
    let asked = asked_of(request, size)?;
    if has_bit(request.wants, 8) {
        map_parts(alloc, request.wants, request.objects, &asked.1, &asked.0)
    } else {
        run_parts(alloc, request.wants, request.objects, &asked.1, &asked.0)
    }
}

/// Whether a buffer is too short.
fn is_short(given: &LinkOutput, answer: &RunAnswer<'_>) -> bool
    ensures { result ≡ is_short (results_of given.now) (left_in 0 answer.now) }
{
    answer.file.len() < given.file.len()
        || answer.report.len() < given.report.len()
        || (LIST_RESULT <= answer.size && answer.findings.len() < given.findings.len())
        || (PLACES_RESULT <= answer.size && answer.places.len() < given.places.len())
        || (MAP_RESULT <= answer.size && answer.map.is_short(given))
}

/// Answers by a status, by a fault with its word and its place, and by the sizes of what there is, which is written if all fits.
fn answer_by(
    answer: &mut RunAnswer<'_>,
    fits: bool,
    status: u32,
    said: &Answer,
    given: &LinkOutput,
) -> u32
    requires { fits ≡ true → is_short (results_of given.now) (left_in 0 answer.old) ≡ false }
    ensures left { left_in result answer.new ≡ answered fits status said.now
        (results_of given.now) (left_in 0 answer.old) }
    ensures most { answer.new.file_size ≤ 327684 }
{
    answer.fault = said.fault;
    answer.word = said.word;
    answer.place = said.place;
    answer.file_size = given.file.len();
    answer.report_size = given.report.len();
    // else the result may be too short to have the buffers, and nothing beyond it is read
    if fits {
        leave_items(true, &given.file, &mut *answer.file, &mut answer.file_size);
        leave_items(
            true,
            &given.report,
            &mut *answer.report,
            &mut answer.report_size,
        );
    }
    if LIST_RESULT <= answer.size {
        leave_items(
            fits,
            &given.findings,
            &mut *answer.findings,
            &mut answer.finding_count,
        );
    }
    if PLACES_RESULT <= answer.size {
        leave_items(
            fits,
            &given.places,
            &mut *answer.places,
            &mut answer.place_count,
        );
    }
    if MAP_RESULT <= answer.size {
        answer.map.leave(fits, given);
    }
    status
}

/// Writes all of it, or nothing.
fn leave_output(answer: &mut RunAnswer<'_>, given: &LinkOutput) -> u32
    ensures left { left_in result answer.new
        ≡ output_left (results_of given.now) (left_in 0 answer.old) }
    ensures most { answer.new.file_size ≤ 327684 }
{
    if is_short(given, answer) {
        return answer_by(answer, false, 2, &Answer::given(NO_ROOM, 0, 0), given);
    }
    let status = u32::from(given.status);
    answer_by(answer, true, status, &Answer::given(0, 0, 0), given)
}

/// Writes what there is, or why there is nothing.
#[tactic(auto, using(crate::proofs::RunLemmas::nothing_left))]
pub(crate) fn leave(
    alloc: Global,
    answer: &mut RunAnswer<'_>,
    given: Result<LinkOutput, Refusal>,
) -> u32
    ensures left { left_in result answer.new ≡ answer_left given (left_in 0 answer.old) }
    ensures most { answer.new.file_size ≤ 327684 }
{
    match given {
        Ok(given) => leave_output(answer, &given),
        Err(refusal) => {
            let nothing = LinkOutput::nothing(alloc);
            answer_by(answer, false, 2, &Answer::refused(refusal), &nothing)
        }
    }
}
