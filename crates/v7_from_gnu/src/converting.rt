//! Conversions of files that were read. Nothing is written before all are converted.
ghost use Rattle.std.specs.Prelude.{◌≡◌, [], IfErr, IfOk, Some};
ghost use Rattle.host.specs.Answers.{FindsOr, Stops, is_none};
ghost use Rattle.v7_from_gnu.specs.{Converting.{converted_from, outcome, target_of}, Runs.{IsConversion, IsConverting}};
ghost use Rattle.v7_from_gnu.specs.internal.Lists.{RefusedAs};

use crate::arguments::{Conversion, Job};
use crate::checks::{check_inputs, check_names, check_paths};
use crate::lines::put_refusal;
use crate::reading::{Source, read_all};
use crate::storing::store_all;
use aout_core::Object;
use gnu_objects::{Options, Refusal, convert};
use host::{Answer, Fault, FileSystem, error_answer};
use std::alloc::Global;
use std::marker::Model;
use texts::Text;

/// A file that was read, and the object that it becomes.
#[derive(Drop)]
pub(crate) struct Target {
    pub(crate) source: Source,
    pub(crate) object: Object,
}

impl Model for Target {
    ghost use Rattle.v7_from_gnu.specs.Jobs as spec;

    ghost Value = { spec.Target };

    ghost view = { λ t. record { source = t.source; object = t.object } };
}

/// The fault that a file is refused, or that memory ran out.
fn refused(alloc: Global, source: &Source, refusal: Refusal) -> Fault
    ensures { RefusedAs refusal result }
{
    if let Refusal::Memory(refused) = refusal {
        return Fault::Memory(refused);
    }
    let mut line = Text::new(alloc);
    put_refusal(&mut line, source, refusal);
    match error_answer(alloc, line, 1) {
        Ok(answer) => Fault::Answered(answer),
        Err(error) => Fault::from(error),
    }
}

fn convert_one(alloc: Global, options: Options, source: Source) -> Result<Target, Fault>
    ensures { FindsOr (target_of options source) result }
{
    match convert(alloc, &source.bytes, options) {
        Ok(object) => Ok(Target { source, object }),
        Err(refusal) => Err(refused(alloc, &source, refusal)),
    }
}

/// Converts each file, up to the first that is refused.
fn convert_each(alloc: Global, options: Options, sources: Vec<Source>) -> Result<Vec<Target>, Fault>
    ensures ok { IfOk result (λ targets.
        converted_from options [] sources.items ≡ Some targets.items) }
    ensures err { IfErr result (λ fault.
        Stops (is_none (converted_from options [] sources.items)) 1 fault) }
{
    let mut targets = Vec::new(alloc);
    for source in sources {
        match convert_one(alloc, options, source) {
            Ok(target) => targets.push(target)?,
            Err(fault) => return Err(fault),
        }
    }
    Ok(targets)
}

/// Converts files that were read, if no two externals would become one.
#[tactic(auto, using(crate::proofs::ConvertingLemmas::by_step))]
fn convert_all(alloc: Global, options: Options, sources: Vec<Source>) -> Result<Vec<Target>, Fault>
    ensures ok { IfOk result (λ targets. outcome options sources.items ≡ Some targets.items) }
    ensures err { IfErr result (λ fault. Stops (is_none (outcome options sources.items)) 1 fault) }
{
    let targets = convert_each(alloc, options, sources)?;
    check_names(alloc, &targets)?;
    Ok(targets)
}

/// Converts files after their paths were checked: reads all, converts all, and then writes the objects.
fn convert_checked<O: FileSystem>(
    alloc: Global,
    file_system: &mut O,
    options: Options,
    is_quiet: bool,
    jobs: Vec<Job>,
) -> Result<Answer, Fault>
    ensures { IsConverting (record { options = options; is_quiet = is_quiet; jobs = jobs.items })
        (O.history file_system.old) (O.history file_system.new) result }
{
    let sources = read_all(alloc, file_system, jobs)?;
    let targets = convert_all(alloc, options, sources)?;
    store_all(
        alloc,
        file_system,
        (!is_quiet).then_some(options.locals),
        &targets,
    )
}

/// Converts files, and checks their paths first.
fn convert_jobs<O: FileSystem>(
    alloc: Global,
    file_system: &mut O,
    options: Options,
    is_quiet: bool,
    jobs: Vec<Job>,
) -> Result<Answer, Fault>
    ensures { IsConversion (record { options = options; is_quiet = is_quiet; jobs = jobs.items })
        (O.history file_system.old) (O.history file_system.new) result }
{
    check_inputs(alloc, file_system, &jobs)?;
    check_paths(alloc, &jobs)?;
    convert_checked(alloc, file_system, options, is_quiet, jobs)
}

pub(crate) fn convert_files<O: FileSystem>(
    alloc: Global,
    file_system: &mut O,
    conversion: Conversion,
) -> Result<Answer, Fault>
    ensures { IsConversion conversion (O.history file_system.old) (O.history file_system.new) result }
{
    let Conversion {
        options,
        is_quiet,
        jobs,
    } = conversion;
    convert_jobs(alloc, file_system, options, is_quiet, jobs)
}
