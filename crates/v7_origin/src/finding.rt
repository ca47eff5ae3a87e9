//! Which objects a program was linked from.
ghost use Rattle.std.specs.Prelude.{◌≡◌, false, true, IfOk, IfSome};
ghost use Rattle.v7_origin.specs.Whole.{IsWhole};

use crate::candidates::{Trial, trial_of};
use crate::gaps::{put_part, rows_of_part};
use crate::known::{Known, Row};
use crate::late::with_all_late;
use crate::lines::{put_command, put_head, put_row};
use crate::linking::{Compared, compare, layout_of, linked_symbols, session_of};
use crate::naming::symbols_of;
use crate::reading::Source;
use crate::scanning::MOST_WORK;
use crate::search::Search;
use aout_core::{File, Object, Symbol};
use link_out::Keep;
use std::alloc::{AllocError, Global};
use texts::Text;

/// How many orders are linked, at most.
const MOST_ORDERS: u32 = 256;

/// As many words are compared in the time of a link.
const LINK_WORK: usize = 1_000_000;

/// What was found.
#[derive(Drop)]
pub(crate) struct Finding {
    pub(crate) text: Text,
    /// Whether the link of the objects is the program.
    pub(crate) is_whole: bool,
    /// The symbols that the objects give the program.
    pub(crate) symbols: Vec<Symbol>,
}

/// The lines of objects that have all text and data, and the numbers of their files.
fn lines_of(trial: &Trial<'_>, rows: &[Row]) -> Result<(Text, Vec<usize>), AllocError> {
    let mut text = Text::new(trial.alloc);
    let mut order = Vec::new(trial.alloc);
    put_head(&mut text, trial.sources, trial.program);
    for row in rows {
        put_row(&mut text, trial, rows, row);
        let candidate = trial.all.get(row.candidate);
        let file = candidate.and_then(|candidate| candidate.files.get(row.file).copied());
        order.push(file.unwrap_or(usize::MAX))?;
    }
    Ok((text, order))
}

/// What is found of files in an order: whether their link is the program, or where it differs.
fn judged(
    alloc: Global,
    keep: Keep,
    program: &File,
    sources: &[Source],
    order: &[usize],
    lines: Text,
) -> Result<Finding, AllocError>
    ensures { IfOk result (λ f. f.is_whole ≡ true → IsWhole program.now sources.now) }
{
    let layout = layout_of(program.header().magic);
    let mut text = lines;
    let Some(session) = session_of(alloc, sources, order)? else {
        text.put("not all of it: these objects are too large together\n");
        return Ok(Finding {
            text,
            is_whole: false,
            symbols: Vec::new(alloc),
        });
    };
    let symbols = linked_symbols(alloc, &session, layout, keep)?;
    let is_whole = match compare(alloc, &session, layout, program)? {
        Compared::Equal => {
            text.put("all of it: ");
            true
        }
        Compared::Differs(why) => {
            text.put("not all of it: ");
            text.put_bytes(why.so_far()?);
            text.put(", with ");
            false
        }
    };
    put_command(&mut text, program, sources, order);
    Ok(Finding {
        text,
        is_whole,
        symbols,
    })
}

/// What is found of a program that no order of objects gives: first the longest way from its front.
fn part_of(
    trial: &Trial<'_>,
    has_locals: bool,
    front: &[Row],
    left: u64,
) -> Result<Finding, AllocError>
    ensures { IfOk result (λ f. f.is_whole ≡ false) }
{
    let mut known = Known::new(trial, left)?;
    let rows = rows_of_part(trial, front, &mut known)?;
    let mut text = Text::new(trial.alloc);
    put_part(&mut text, trial, &rows, &mut known)?;
    let symbols = symbols_of(trial, &rows, has_locals)?;
    Ok(Finding {
        text,
        is_whole: false,
        symbols,
    })
}

/// What is found of the next order of objects that has all text and data, if there is one.
fn find_next(
    keep: Keep,
    program: &File,
    sources: &[Source],
    trial: &Trial<'_>,
    search: &mut Search<'_>,
) -> Result<Option<Finding>, AllocError>
    ensures { IfOk result (λ o. IfSome o (λ f. f.is_whole ≡ true → IsWhole program.now sources.now)) }
{
    if !search.run()? {
        return Ok(None);
    }
    search.known.charge(LINK_WORK);
    let rows = with_all_late(trial, &search.known, search.rows()?)?;
    let (lines, order) = lines_of(trial, &rows)?;
    Ok(Some(judged(trial.alloc, keep, program, sources, &order, lines)?))
}

/// What is found of orders of objects that have all text and data, if there are any: one whose link is the program, or the first.
fn find_orders(
    keep: Keep,
    program: &File,
    sources: &[Source],
    trial: &Trial<'_>,
    search: &mut Search<'_>,
) -> Result<Option<Finding>, AllocError>
    ensures { IfOk result (λ o. IfSome o (λ f. f.is_whole ≡ true → IsWhole program.now sources.now)) }
{
    let Some(first) = find_next(keep, program, sources, trial, search)? else {
        return Ok(None);
    };
    if first.is_whole {
        return Ok(Some(first));
    }
    for _ in 1..MOST_ORDERS {
        let Some(other) = find_next(keep, program, sources, trial, search)? else {
            break;
        };
        if other.is_whole {
            return Ok(Some(other));
        }
    }
    Ok(Some(first))
}

/// Which of the objects a program was linked from.
pub(crate) fn find(
    alloc: Global,
    has_locals: bool,
    program: &File,
    sources: &[Source],
    objects: Vec<Object>,
) -> Result<Finding, AllocError>
    ensures { IfOk result (λ f. f.is_whole ≡ true → IsWhole program.now sources.now) }
{
    let mut left = MOST_WORK;
    let trial = trial_of(alloc, program, sources, objects, &mut left)?;
    let known = Known::new(&trial, left)?;
    let mut search = Search::new(&trial, known, (0, 0), trial.end())?;
    let keep = if has_locals {
        Keep::All
    } else {
        Keep::Externals
    };
    match find_orders(keep, program, sources, &trial, &mut search)? {
        Some(found) => Ok(found),
        None => {
            let left = search.known.left;
            part_of(&trial, has_locals, &search.longest, left)
        }
    }
}
