//! What the arguments ask for.
ghost use Rattle.std.specs.{Prelude.{◌≡◌, ◌∷◌, [], map, string_bytes, IfOk}, Option.option_map};
ghost use Rattle.v7_from_gnu.specs.{Calls.{after_slash, conversion_of, into_folder, jobs_of, locals_in}, internal.Lists.listed};

use gnu_objects::{Locals, Options};
use host::{Given, Reason};
use std::alloc::{AllocError, Global};
use std::marker::Model;

/// A file that is to be converted, and the path where its object is to go.
#[derive(Drop)]
pub(crate) struct Job {
    pub(crate) from: String,
    pub(crate) to: String,
}

impl Model for Job {
    ghost use Rattle.std.specs.Prelude.{string_bytes};
    ghost use Rattle.v7_from_gnu.specs.Jobs as spec;

    ghost Value = { spec.Job };

    ghost view = { λ j. record { from = string_bytes j.from; to = string_bytes j.to } };
}

/// A conversion that the arguments ask for.
#[derive(Drop)]
pub(crate) struct Conversion {
    pub(crate) options: Options,
    /// `-q`: no line for a name that is cut or a local that is dropped.
    pub(crate) is_quiet: bool,
    pub(crate) jobs: Vec<Job>,
}

impl Model for Conversion {
    ghost use Rattle.v7_from_gnu.specs.Jobs as spec;

    ghost Value = { spec.Conversion };

    ghost view = { λ c. record { options = c.options; is_quiet = c.is_quiet; jobs = c.jobs.items } };
}

/// What becomes of locals.
fn locals_in(given: &Given) -> Locals
    ensures { result ≡ locals_in given.now }
{
    if given.has(b'x') {
        return Locals::KeepNone;
    }
    if given.has(b'X') {
        return Locals::KeepNeeded;
    }
    Locals::KeepAll
}

/// What follows the last slash of a path, or all of it.
fn after_slash(path: &str) -> &str
    ensures { result.now ≡ after_slash path.now }
{
    let mut name = path;
    while let Some((_, rest)) = name.split_once('/') {
        name = rest;
    }
    name
}

/// The conversion of a file to one of the same name in a folder.
fn into_folder(alloc: Global, folder: &str, path: &str) -> Result<Job, AllocError>
    ensures { IfOk result (λ job. job ≡ into_folder folder.now path.now) }
{
    let mut to = String::from_str(alloc, folder)?;
    to.push_str("/")?;
    to.push_str(after_slash(path))?;
    Ok(Job {
        from: String::from_str(alloc, path)?,
        to,
    })
}

/// The conversions of files to files of the same names in a folder.
fn all_into_folder(alloc: Global, folder: &str, paths: &[String]) -> Result<Vec<Job>, AllocError>
    ensures { IfOk result (λ jobs.
        jobs.items ≡ map (into_folder folder.now) (map string_bytes paths.now)) }
{
    let mut jobs = Vec::new(alloc);
    for path in paths {
        jobs.push(into_folder(alloc, folder, path.as_str())?)?;
    }
    Ok(jobs)
}

/// The conversion of a file to another.
fn one_job(alloc: Global, from: &str, to: &str) -> Result<Vec<Job>, AllocError>
    ensures { IfOk result (λ jobs. jobs.items ≡ record { from = from.now; to = to.now } ∷ []) }
{
    let mut jobs = Vec::new(alloc);
    jobs.push(Job {
        from: String::from_str(alloc, from)?,
        to: String::from_str(alloc, to)?,
    })?;
    Ok(jobs)
}

/// What is to be converted: all files to a folder, or without a folder one file to another.
fn jobs_of(
    alloc: Global,
    folder: Option<&str>,
    paths: &[String],
) -> Result<Result<Vec<Job>, Reason>, AllocError>
    ensures { IfOk result (λ jobs. listed jobs
        ≡ jobs_of (option_map (λ f. f.now) folder.entry) (map string_bytes paths.now)) }
{
    match (folder, paths) {
        (None, [from, to]) => Ok(Ok(one_job(alloc, from.as_str(), to.as_str())?)),
        (None, _) => Ok(Err(Reason::NotTwoFiles)),
        (Some(_), []) => Ok(Err(Reason::NoFile)),
        (Some(folder), _) => Ok(Ok(all_into_folder(alloc, folder, paths)?)),
    }
}

/// The conversion that is asked for, if one is.
pub(crate) fn conversion_of(
    alloc: Global,
    given: &Given,
) -> Result<Result<Conversion, Reason>, AllocError>
    ensures { IfOk result (λ found. found ≡ conversion_of given.now) }
{
    match jobs_of(alloc, given.value_of(b'o'), given.paths())? {
        Ok(jobs) => Ok(Ok(Conversion {
            options: Options {
                drops_debugger: given.has(b'S'),
                locals: locals_in(given),
            },
            is_quiet: given.has(b'q'),
            jobs,
        })),
        Err(reason) => Ok(Err(reason)),
    }
}
