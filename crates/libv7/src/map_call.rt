//! The map of a link of objects whose bytes are apart, as records, with its file and its report.
ghost use Rattle.std.specs.Prelude.{◌≡◌, ◌≢◌, ◌⊎◌, ◌++◌, ◌∷◌, [], ℕ, List, length, Ok, Err, IfOk, IfErr, IsOk};
ghost use Rattle.aout_core.specs.{Contents.Contents, Refusals.refused};
ghost use Rattle.link_session.specs.Labelled.{objects};
ghost use Rattle.link_maps.specs.{Links.read_inputs, Members.{all_of, cause_of}};
ghost use Rattle.libv7.specs.LinkAnswers.{each_of, numbered};
ghost use Rattle.libv7.specs.MapAnswers.{AreTaken, IsMapped, MapsParts, MayRunOutInMap, head_by, made_head, objects_each, placed_head, run_shown};
ghost use Rattle.libv7.specs.declared.cause.Cause.TheVariants.{Memory};
ghost use Rattle.libv7.specs.{FileAnswers.object_in, MemoryWanted.{HasBody, MayRunOutInParts}, RunAnswers.results_of};

use crate::cause::{Cause, Refusal};
use crate::decoding::first_object;
use crate::output::{LinkOutput, MapHead, NO_HEAD};
use crate::parts::ObjectBytes;
use crate::run_call::result_of;
use link_maps::{LinkMap, Objects, map_of, padded, records_of};
use link_out::{Bases, Linked, Options};
use link_session::{Forced, Session};
use std::alloc::{AllocError, Global};

/// Takes the object that the bytes begin with, without a label.
fn take_read(alloc: Global, all: &mut Objects, bytes: &[u8]) -> Result<(), Cause>
    ensures read { IfOk result (λ _. (object : Contents) × (object_in bytes.now ≡ Ok object)
        × (objects (all_of all.new) ≡ objects (all_of all.old) ++ object ∷ [])) }
    ensures taken { IfOk result (λ _. (forced : List (List ℕ)) → AreTaken forced
        (objects (all_of all.old)) all.old → AreTaken forced (objects (all_of all.new)) all.new) }
    ensures err { IfErr result (λ cause. cause ≢ Memory refused → object_in bytes.now ≡ Err cause) }
    ensures memory { IfErr result (λ cause.
        cause ≡ Memory refused → HasBody bytes.now ⊎ IsOk (object_in bytes.now)) }
{
    let object = first_object(alloc, bytes)?;
    all.take(alloc, String::new(alloc), object)?;
    Ok(())
}

/// The objects that the parts begin with.
fn objects_of(alloc: Global, parts: &[ObjectBytes<'_>], forced: &Forced) -> Result<Objects, Refusal>
    ensures read { IfOk result (λ all.
        objects_each (each_of parts.now) ≡ Ok (objects (all_of all))) }
    ensures taken { IfOk result (λ all. AreTaken forced.now (objects (all_of all)) all) }
    ensures err { IfErr result (λ r. r.cause ≢ Memory refused → objects_each (each_of parts.now) ≡ Err r) }
    ensures memory { IfErr result (λ r. r.cause ≡ Memory refused
        → MayRunOutInParts objects_each forced.now (each_of parts.now) r.place) }
{
    let mut all = Objects::new(alloc, forced)?;
    for (place, part) in parts.iter().enumerate() {
        match take_read(alloc, &mut all, part.bytes) {
            Ok(()) => {}
            Err(cause) => return Err(Refusal { cause, place }),
        }
    }
    Ok(all)
}

/// The head of a link that is made, beside where its segments lie.
fn made_head(bases: &Bases, linked: &Linked) -> MapHead
    ensures { result ≡ made_head bases.now linked.now }
{
    let header = linked.file.header();
    let (entry_bit, entry_name) = match &linked.report.entry_bad {
        Some(name) => (2, padded(name)),
        None => (0, [0; 8]),
    };
    MapHead {
        state: u32::from(linked.report.status()) + entry_bit,
        magic: header.magic,
        entry_point: header.entry_point,
        entry_name,
        ..placed_head(bases, 0)
    }
}

/// The head of a link all of whose objects are taken, without what a link that is made has.
fn placed_head(bases: &Bases, fault: u32) -> MapHead
    ensures { result ≡ placed_head bases.now fault }
{
    MapHead {
        text_end: bases.text_end,
        data_start: bases.data_start,
        data_end: bases.data_end,
        bss_start: bases.bss_start,
        bss_end: bases.bss_end,
        fault,
        ..NO_HEAD
    }
}

/// What becomes of the link of a map.
fn head_of(map: &LinkMap, all: &Objects) -> MapHead
    ensures { result
        ≡ head_by (cause_of all.now.refused) (length all.now.session.entries) map.now.outcome }
{
    match &all.refused {
        Some(refused) => MapHead {
            fault: Cause::NotAdded(refused.cause).code().0,
            place: all.session.entries().len(),
            ..NO_HEAD
        },
        None => match &map.outcome {
            Some(outcome) => match &outcome.linked {
                Ok(linked) => made_head(&outcome.bases, linked),
                Err(fault) => placed_head(&outcome.bases, Cause::NotLinked(*fault).code().0),
            },
            None => NO_HEAD,
        },
    }
}

/// The file of the link that a map shows, and what is wanted of its report; nothing if there is no link.
fn run_shown(
    alloc: Global,
    wants: u32,
    map: &LinkMap,
    session: Session,
) -> Result<LinkOutput, AllocError>
    ensures { IfOk result (λ run. results_of run
        ≡ run_shown wants session.forced (objects session.entries) map.now.outcome) }
{
    match &map.outcome {
        Some(outcome) => match &outcome.linked {
            Ok(linked) => result_of(alloc, wants, session, linked),
            Err(_) => Ok(LinkOutput::nothing(alloc)),
        },
        None => Ok(LinkOutput::nothing(alloc)),
    }
}

/// The map of these objects, with what their link gives.
fn map_objects(
    alloc: Global,
    wants: u32,
    all: Objects,
    forced: &Forced,
    options: &Options,
) -> Result<LinkOutput, AllocError>
    ensures { IfOk result (λ x. (parts : List (List ℕ))
        → read_inputs (numbered 0 parts) ≡ Ok (objects (all_of all)) → AreTaken forced.now (objects (all_of all)) all
        → IsMapped wants forced.now options.now parts (objects (all_of all)) x) }
{
    let map = map_of(alloc, &all, forced, options)?;
    let records = records_of(alloc, &map, &all, options)?;
    let head = head_of(&map, &all);
    let mut given = run_shown(alloc, wants, &map, all.session)?;
    given.head = head;
    given.records = records;
    Ok(given)
}

/// The map of the link of the object that each of the parts begins with, in their order, with the file and what is wanted of the report.
/// A link that is refused has a map too, and nothing else.
///
/// Errors: those of `run_parts` but for 31 to 43, which are in the map.
#[tactic(auto, using(crate::proofs::MapLemmas::mapped_all))]
pub(crate) fn map_parts(
    alloc: Global,
    wants: u32,
    parts: &[ObjectBytes<'_>],
    forced: &Forced,
    options: &Options,
) -> Result<LinkOutput, Refusal>
    ensures ok { IfOk result (λ x. MapsParts wants forced.now options.now (each_of parts.now) x) }
    ensures err { IfErr result (λ r. r.cause ≢ Memory refused → objects_each (each_of parts.now) ≡ Err r) }
    ensures memory { IfErr result (λ r.
        r.cause ≡ Memory refused → MayRunOutInMap forced.now (each_of parts.now) r.place) }
{
    let all = match objects_of(alloc, parts, forced) {
        Ok(all) => all,
        Err(refusal) => return Err(refusal),
    };
    Ok(map_objects(alloc, wants, all, forced, options)?)
}
