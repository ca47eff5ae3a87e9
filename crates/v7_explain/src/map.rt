//! The map of a link, made or refused.
ghost use Rattle.std.specs.Prelude.{◌≡◌, ◌≤◌, IfOk, map, string_bytes};
ghost use Rattle.host.specs.Programs.{CallsOr};
ghost use Rattle.v7_explain.specs.{Calls.words_of_link, Runs.{IsMapping, MapsCall, MapsWords, link_words}};

use crate::asked::{Asked, take_asked};
use crate::help::USAGE;
use crate::map_objects::take_objects;
use crate::mapped::Mapped;
use crate::program::NAME;
use command_words::{Call, WordsFault, parse};
use host::{Answer, Fault, FileSystem, Reason, refused_answer};
use link_maps::{LinkMap, Objects, map_of};
use link_out::Options;
use link_session::Forced;
use std::alloc::{AllocError, Global};

/// The status of a map: 1 if the link is refused, has something to report, or lacks what is asked for.
fn status_of(map: &LinkMap, asked: &Asked) -> u8
    ensures { result ≤ 1 }
{
    match map.linked() {
        Some(linked) if linked.report.status() == 0 && asked.absent.is_empty() => 0,
        _ => 1,
    }
}

/// The map of a link of objects, with its status: the whole map, or only what is asked for by some arguments.
fn map_answer(
    alloc: Global,
    arguments: &[String],
    objects: &Objects,
    forced: &Forced,
    options: &Options,
) -> Result<Answer, AllocError>
    ensures { IfOk result (λ a. a.status ≤ 1) }
{
    let map = map_of(alloc, objects, forced, options)?;
    let all = objects.all(alloc)?;
    let asked = Asked::of(alloc, &map, forced.names(), &all, arguments)?;
    let mapped = Mapped::new(alloc, objects, &all, &map, &asked)?;
    Ok(Answer {
        output: mapped.text(alloc, options, arguments.is_empty())?,
        errors: Vec::new(alloc),
        status: status_of(&map, &asked),
    })
}

/// The map of the link of these files, or why some are not objects.
fn map_link<O: FileSystem>(
    alloc: Global,
    file_system: &mut O,
    asked: &[String],
    forced: &Forced,
    options: &Options,
    files: &[String],
) -> Result<Answer, Fault>
    ensures { IsMapping (map string_bytes files.now) (O.history file_system.old) (O.history file_system.new) result }
{
    let mut objects = Objects::new(alloc, forced)?;
    let said = take_objects(alloc, file_system, &mut objects, files)?;
    if said.status != 0 {
        return Ok(said);
    }
    Ok(map_answer(alloc, asked, &objects, forced, options)?)
}

/// The arguments of `ld`, which begin with its name.
fn link_words(alloc: Global, words: &[String]) -> Result<Vec<String>, AllocError>
    ensures { IfOk result (λ all.
        map string_bytes all.items ≡ link_words (map string_bytes words.now)) }
{
    let mut all = Vec::new(alloc);
    all.push(String::from_str(alloc, "ld")?)?;
    for word in words {
        all.push(String::from_str(alloc, word.as_str())?)?;
    }
    Ok(all)
}

/// The map of the link that a call asks for, if it is one of `ld`.
fn map_call<O: FileSystem>(
    alloc: Global,
    file_system: &mut O,
    asked: &[String],
    call: &Call,
) -> Result<Answer, Fault>
    ensures { MapsCall call.now (O.history file_system.old) (O.history file_system.new) result }
{
    match call {
        Call::Ld {
            options,
            forced,
            files,
            ..
        } => map_link(alloc, file_system, asked, forced, options, files),
        _ => Ok(refused_answer(alloc, NAME, USAGE, Reason::NotOfLd(b'm'))?),
    }
}

/// The map of the link that the arguments of `ld` ask for.
#[tactic(auto, using(crate::proofs::MapLemmas::by_words))]
fn map_words<O: FileSystem>(
    alloc: Global,
    file_system: &mut O,
    asked: &[String],
    words: &[String],
) -> Result<Answer, Fault>
    ensures { MapsWords (map string_bytes words.now) (O.history file_system.old) (O.history file_system.new) result }
{
    match parse(alloc, link_words(alloc, words)?) {
        Ok(call) => map_call(alloc, file_system, asked, &call),
        Err(WordsFault::Usage) => { Ok(refused_answer(alloc, NAME, USAGE, Reason::NotOfLd(b'm'))?) }
        Err(WordsFault::Memory(refused)) => Err(Fault::Memory(refused)),
    }
}

/// The map of the link that the arguments of `ld` ask for, or only what the arguments in front of these ask for.
#[tactic(auto, using(crate::proofs::AskedLemmas::by_asked))]
pub(crate) fn map_files<O: FileSystem>(
    alloc: Global,
    file_system: &mut O,
    words: &[String],
) -> Result<Answer, Fault>
    ensures { CallsOr MapsWords (words_of_link (map string_bytes words.now))
        (O.history file_system.old) (O.history file_system.new) result }
{
    let mut asked = Vec::new(alloc);
    match take_asked(alloc, &mut asked, words)? {
        Some(rest) => map_words(alloc, file_system, &asked, rest),
        None => Ok(refused_answer(alloc, NAME, USAGE, Reason::NoValue(b'y'))?),
    }
}
