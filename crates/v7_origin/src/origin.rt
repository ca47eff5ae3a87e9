//! What is opened, read and stored for a program whose objects are looked for.
ghost use Rattle.std.specs.Prelude.{◌≡◌, [], if◌then◌else◌, map, string_bytes, option_map, true, IfOk};
ghost use Rattle.v7_origin.specs.Runs.{ChecksEach, ChecksOut, Ends, FindsAmong, IsOrigin, Judges};

use crate::finding::{Finding, find};
use crate::naming::named;
use crate::program::NAME;
use crate::reading::{PathFrom, Source, files_of, paths_in, read_each};
use aout_core::{File, Symbol};
use host::{Answer, Fault, FileSystem, Folders, Given, answer_stored, check_output};
use std::alloc::{AllocError, Global};
use texts::Text;

/// Checks that the output is none of these files.
fn check_each<O: FileSystem>(
    alloc: Global,
    file_system: &mut O,
    out: &str,
    sources: &[Source],
) -> Result<(), Fault>
    ensures { ChecksEach out.now (map (λ s. s.path) sources.now)
        (O.history file_system.old) (O.history file_system.new) result }
{
    for source in sources {
        check_output(alloc, file_system, NAME, source.path.as_str(), out)?;
    }
    Ok(())
}

/// Checks the output, if there is one.
fn check_out<O: FileSystem>(
    alloc: Global,
    file_system: &mut O,
    out: Option<&str>,
    sources: &[Source],
) -> Result<(), Fault>
    ensures { ChecksOut (option_map (λ o. o.now) out.entry) (map (λ s. s.path) sources.now)
        (O.history file_system.old) (O.history file_system.new) result }
{
    match out {
        Some(out) => check_each(alloc, file_system, out, sources),
        None => Ok(()),
    }
}

/// The answer with what was found, after the files that were not tried.
fn answer_of(
    alloc: Global,
    is_quiet: bool,
    notes: &Text,
    text: &Text,
    is_whole: bool,
) -> Result<Answer, AllocError>
    ensures ends { IfOk result (λ a. a.status ≡ (if is_whole then 0 else 1)) }
    ensures quiet { IfOk result (λ a. is_quiet ≡ true → a.output ≡ []) }
    ensures errors { IfOk result (λ a. a.errors ≡ []) }
{
    let mut output = Vec::new(alloc);
    if !is_quiet {
        output.extend_from_slice(notes.so_far()?)?;
        output.extend_from_slice(text.so_far()?)?;
    }
    Ok(Answer {
        output,
        errors: Vec::new(alloc),
        status: if is_whole { 0 } else { 1 },
    })
}

/// The answer, once the program is stored with these symbols, if it is to be.
fn answer_found<O: FileSystem>(
    alloc: Global,
    file_system: &mut O,
    out: Option<&str>,
    program: File,
    symbols: Vec<Symbol>,
    answer: Answer,
) -> Result<Answer, Fault>
    ensures { Ends (option_map (λ o. o.now) out.entry) program answer
        (O.history file_system.old) (O.history file_system.new) result }
{
    let Some(out) = out else {
        return Ok(answer);
    };
    let stored = file_system.store(out, &named(program, symbols));
    answer_stored(alloc, NAME, out, stored, answer)
}

/// Finds the objects of a program among files that were read, if they are such files.
fn judge<O: FileSystem>(
    alloc: Global,
    file_system: &mut O,
    given: &Given,
    notes: &Text,
    sources: &[Source],
) -> Result<Answer, Fault>
    ensures { Judges given.now sources.now (O.history file_system.old) (O.history file_system.new) result }
{
    let (program, objects) = files_of(alloc, sources)?;
    let Finding {
        text,
        is_whole,
        symbols,
    } = find(alloc, given.has(b'a'), &program, sources, objects)?;
    let answer = answer_of(alloc, given.has(b'q'), notes, &text, is_whole)?;
    answer_found(
        alloc,
        file_system,
        given.value_of(b'o'),
        program,
        symbols,
        answer,
    )
}

/// Reads files, those that were found in a folder last, and finds which of the objects the program was linked from.
fn find_among<O: FileSystem>(
    alloc: Global,
    file_system: &mut O,
    given: &Given,
    notes: Text,
    found: &[String],
) -> Result<Answer, Fault>
    ensures { FindsAmong given.now (map string_bytes found.now)
        (O.history file_system.old) (O.history file_system.new) result }
{
    let mut notes = notes;
    let mut sources = Vec::new(alloc);
    read_each(
        alloc,
        file_system,
        PathFrom::Arguments,
        &mut sources,
        &mut notes,
        given.paths(),
    )?;
    read_each(
        alloc,
        file_system,
        PathFrom::Folder,
        &mut sources,
        &mut notes,
        found,
    )?;
    check_out(alloc, file_system, given.value_of(b'o'), &sources)?;
    judge(alloc, file_system, given, &notes, &sources)
}

/// Finds which of the objects a program was linked from.
pub(crate) fn origin_of<O: FileSystem, F: Folders>(
    alloc: Global,
    file_system: &mut O,
    folders: &F,
    given: &Given,
) -> Result<Answer, Fault>
    ensures { IsOrigin given.now (O.history file_system.old) (O.history file_system.new) result }
{
    let mut notes = Text::new(alloc);
    let found = paths_in(alloc, folders, given.value_of(b'R'), &mut notes)?;
    find_among(alloc, file_system, given, notes, &found)
}
