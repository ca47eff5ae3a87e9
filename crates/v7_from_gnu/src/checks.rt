//! What is checked before a file is opened, and before one is written.
ghost use Rattle.std.specs.Prelude.{◌≡◌, [], map, position, string_bytes, IfOk, Ok};
ghost use Rattle.gnu_objects.specs.Clashes.{has_clash};
ghost use Rattle.host.specs.Answers.{Refuses};
ghost use Rattle.v7_from_gnu.specs.Checks.{ChecksInputs, Judges, Looks, bytes_of, goes_to, has_path_twice, replaces};
ghost use Rattle.v7_from_gnu.specs.internal.Lists.{listed};

use crate::arguments::Job;
use crate::converting::Target;
use crate::program::NAME;
use gnu_objects::{Clash, clashes_among};
use host::{
    Fault, FileSystem, Nodes, Path, error_answer, fault_at, is_refused, nodes_at, refused_output,
};
use std::alloc::{AllocError, Global};
use texts::{Printable, Text};

/// Whether one of these objects goes to a path.
fn goes_to(jobs: &[Job], path: &String) -> bool
    ensures { result ≡ goes_to jobs.now (string_bytes path.now) }
{
    jobs.iter().any(|job| job.to == *path)
}

/// Checks the path of one object, with the objects before it.
fn check_path(alloc: Global, before: &[Job], job: &Job) -> Result<(), Fault>
    ensures { Refuses 2 (goes_to before.now job.now.to) result }
{
    if goes_to(before, &job.to) {
        return Err(fault_at(alloc, NAME, job.from.as_str(), "a second file of this name"));
    }
    Ok(())
}

/// Checks the paths of objects: no two are one.
#[tactic(auto, using(crate::proofs::AnswerLemmas::stops_or))]
pub(crate) fn check_paths(alloc: Global, jobs: &[Job]) -> Result<(), Fault>
    ensures { Refuses 2 (has_path_twice jobs.now) result }
{
    for (index, job) in jobs.iter().enumerate() {
        check_path(alloc, &jobs[..index], job)?;
    }
    Ok(())
}

/// What the paths of jobs lead to.
fn look<O: FileSystem>(
    alloc: Global,
    file_system: &mut O,
    jobs: &[Job],
) -> Result<Vec<Nodes>, Fault>
    ensures { Looks (O.history file_system.old) (O.history file_system.new) [] jobs.now (listed result) }
{
    let mut found = Vec::new(alloc);
    for job in jobs {
        let from = job.from.as_str();
        let to = job.to.as_str();
        let nodes = nodes_at(file_system, from, to);
        found.push(nodes)?;
    }
    Ok(found)
}

/// The first object that could replace one of the files that were found.
fn first_replacing(found: &[Nodes]) -> Option<usize>
    ensures { result ≡ position (replaces found.now) found.now }
{
    found.iter().position(|nodes| is_refused(found, *nodes))
}

/// Checks that no object could replace one of the files that were found.
fn judge(alloc: Global, jobs: &[Job], found: &[Nodes]) -> Result<(), Fault>
    ensures { Judges (Ok found.now) result }
{
    match first_replacing(found) {
        Some(place) => {
            let (from, to) = jobs
                .get(place)
                .map_or(("", ""), |job| (job.from.as_str(), job.to.as_str()));
            Err(refused_output(alloc, NAME, from, to, found[place]))
        }
        None => Ok(()),
    }
}

/// Checks that no object could replace one of the files.
pub(crate) fn check_inputs<O: FileSystem>(
    alloc: Global,
    file_system: &mut O,
    jobs: &[Job],
) -> Result<(), Fault>
    ensures { ChecksInputs jobs.now (O.history file_system.old) (O.history file_system.new) result }
{
    let found = look(alloc, file_system, jobs)?;
    judge(alloc, jobs, &found)
}

/// The bytes of the files that were read.
fn bytes_of(alloc: Global, targets: &[Target]) -> Result<Vec<&[u8]>, AllocError>
    ensures { IfOk result (λ all. map (λ b. b.now) all.items ≡ bytes_of targets.now) }
{
    let mut all = Vec::new(alloc);
    for target in targets {
        all.push(target.source.bytes.as_slice())?;
    }
    Ok(all)
}

fn path_of(targets: &[Target], number: usize) -> Path<'_> {
    targets
        .get(number)
        .map_or(Path(""), |target| Path(target.source.from.as_str()))
}

/// Puts the line of an external that clashes with an earlier one.
fn put_clash(lines: &mut Text, targets: &[Target], clash: &Clash<'_>) {
    let (path, name) = (path_of(targets, clash.second_file), Printable(clash.second));
    let (other, first) = (path_of(targets, clash.first_file), Printable(clash.first));
    lines.say(format_args!(
        "{NAME}: {path}: {name} is equal in eight bytes to {first} of {other}\n"
    ));
}

/// Checks the names of files that are converted together: no two externals would become one.
#[tactic(auto, using(crate::proofs::ConvertingLemmas::clash_told))]
pub(crate) fn check_names(alloc: Global, targets: &[Target]) -> Result<(), Fault>
    ensures { Refuses 1 (has_clash (bytes_of targets.now)) result }
{
    let files = bytes_of(alloc, targets)?;
    let clashes = clashes_among(alloc, &files)?;
    if clashes.as_slice().is_empty() {
        return Ok(());
    }
    let mut lines = Text::new(alloc);
    for clash in &clashes {
        put_clash(&mut lines, targets, clash);
    }
    Err(Fault::Answered(error_answer(alloc, lines, 1)?))
}
