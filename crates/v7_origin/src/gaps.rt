//! What was found of a program that is not found whole.
use crate::candidates::Trial;
use crate::known::{Known, Row};
use crate::lines::{put_head, put_range, put_row};
use crate::naming::{named, symbols_of};
use crate::near::put_all_near;
use crate::scanning::differing;
use crate::search::Search;
use aout_core::decode_file;
use disassemblies::NamedFile;
use host::Path;
use std::alloc::AllocError;
use texts::Text;

/// How many words a link has to leave alone in an object, for it not to be by chance where it fits.
const SURE_WORDS: usize = 4;

/// Whether the object of a row has more than a word, and fits at no other place than one: another one may be there by chance.
fn is_single(trial: &Trial<'_>, row: &Row) -> bool {
    trial.all.get(row.candidate).is_some_and(|candidate| candidate.places.len() == 1
        && candidate.text_size() > 2)
}

/// Places rows that a search found.
fn place_all(
    trial: &Trial<'_>,
    known: &mut Known,
    found: &[Row],
    rows: &mut Vec<Row>,
) -> Result<(), AllocError> {
    for row in found {
        let _ = known.place(trial, row.candidate, row.text, row.place)?;
    }
    rows.extend_from_slice(found)
}

/// The bytes of data between those of the rows up to an address of text, and those of the rows after it.
fn data_room(trial: &Trial<'_>, rows: &[Row], text: u16) -> (usize, usize) {
    let (mut low, mut high) = (0, trial.end().1);
    for row in rows {
        if row.place.is_none() {
            continue;
        }
        if row.text <= text {
            low = low.max(trial.end_of(row).1);
        } else {
            high = high.min(usize::from(row.place.unwrap_or(0)));
        }
    }
    (low, high)
}

/// Places an object with its text at an address, if its data agrees at a place in a room. If it agrees at several, that is not known.
fn place_single(
    trial: &Trial<'_>,
    known: &mut Known,
    room: (usize, usize),
    number: usize,
    text: u16,
) -> Result<Option<Row>, AllocError> {
    let Some(candidate) = trial.all.get(number) else {
        return Ok(None);
    };
    let object = candidate.object.file();
    let (words, relocs) = (object.data_words(), object.data_reloc());
    let mut found = None;
    for k in room.0 / 2..room.1 / 2 + 1 {
        let there = trial.program.data_words().get(k..room.1 / 2).unwrap_or(&[]);
        known.charge(1);
        if known.left == 0 || differing(words, relocs, there, 0).0 != 0 {
            continue;
        }
        let place = Some((k.wrapping_mul(2) % 65536) as u16);
        let Some(placed) = known.place(trial, number, text, place)? else {
            continue;
        };
        known.take_back(&placed);
        if found.is_some() {
            found = Some(None);
            break;
        }
        found = Some(place);
    }
    let Some(place) = found else {
        return Ok(None);
    };
    let placed = known.place(trial, number, text, place)?;
    Ok(placed.map(|placed| placed.row))
}

/// Adds the objects that fit at one place alone, where no row is, if they have words enough.
fn add_singles(
    trial: &Trial<'_>,
    known: &mut Known,
    rows: &mut Vec<Row>,
) -> Result<(), AllocError> {
    for (number, candidate) in trial.all.iter().enumerate() {
        let [text] = candidate.places.as_slice() else {
            continue;
        };
        let first = usize::from(*text);
        let end = first.saturating_add(candidate.text_size());
        let is_free = rows.iter().all(|row| trial.end_of(row).0 <= first
            || end <= usize::from(row.text));
        if !is_free || known.used(number) != 0 || candidate.still_words() < SURE_WORDS {
            continue;
        }
        let room = data_room(trial, rows, *text);
        if let Some(row) = place_single(trial, known, room, number, *text)? {
            rows.push(row)?;
        }
    }
    Ok(())
}

/// The objects found, from the front, from the back and between, in the order of their addresses. What follows the last object of the
/// front that fits at one place alone, or comes before the first of the back, is left out.
pub(crate) fn rows_of_part(
    trial: &Trial<'_>,
    front: &[Row],
    known: &mut Known,
) -> Result<Vec<Row>, AllocError> {
    let mut sure = 0usize;
    for (number, row) in front.iter().enumerate() {
        if is_single(trial, row) {
            sure = number.saturating_add(1);
        }
    }
    let mut rows = Vec::new(trial.alloc);
    place_all(trial, known, front.get(..sure).unwrap_or(&[]), &mut rows)?;
    let low = rows.last().map_or((0, 0), |row| trial.end_of(row));
    let mut search = Search::new(trial, known.copy()?, trial.end(), low)?;
    let _ = search.run()?;
    known.left = search.known.left;
    let back = search.longest.as_slice();
    let sure = back.iter().position(|row| is_single(trial, row));
    let back = back.get(sure.unwrap_or(back.len())..).unwrap_or(&[]);
    place_all(trial, known, back, &mut rows)?;
    add_singles(trial, known, &mut rows)?;
    rows.sort_by_key(|row| (row.text, row.place))?;
    Ok(rows)
}

/// Puts the line of a gap, and the objects that are near in it.
fn put_gap(
    text: &mut Text,
    trial: &Trial<'_>,
    program: &NamedFile<'_>,
    known: &mut Known,
    gap: (usize, usize),
) -> Result<(), AllocError> {
    if gap.1 <= gap.0 {
        return Ok(());
    }
    put_range(text, gap.0, gap.1);
    let bytes = gap.1.saturating_sub(gap.0);
    text.say(format_args!("{bytes} bytes of no object here\n"));
    put_all_near(text, trial, program, known, gap)
}

/// Puts how often the objects fit that were not placed.
fn put_others(text: &mut Text, trial: &Trial<'_>, known: &Known) {
    for (number, candidate) in trial.all.iter().enumerate() {
        if known.used(number) != 0 {
            continue;
        }
        let path = Path(trial.path(candidate, 0));
        match candidate.count {
            None => text.say(format_args!(
                "{path}: not tried at all places, which would take too long\n"
            )),
            Some(0) => {}
            Some(1) => text.say(format_args!("{path}: fits at 1 place\n")),
            Some(count) => text.say(format_args!("{path}: fits at {count} places\n")),
        }
    }
}

/// Puts the rows with the gaps between them, and what is near in these.
pub(crate) fn put_part(
    text: &mut Text,
    trial: &Trial<'_>,
    rows: &[Row],
    known: &mut Known,
) -> Result<(), AllocError> {
    let alloc = trial.alloc;
    put_head(text, trial.sources, trial.program);
    let Some(source) = trial.sources.first() else {
        return Ok(());
    };
    let Ok(copy) = decode_file(alloc, &source.bytes)? else {
        return Ok(());
    };
    let with_names = named(copy, symbols_of(trial, rows, false)?);
    let program = NamedFile::new(alloc, &with_names)?;
    let mut end = 0usize;
    for row in rows {
        put_gap(text, trial, &program, known, (end, usize::from(row.text)))?;
        put_row(text, trial, rows, row);
        end = end.max(trial.end_of(row).0);
    }
    put_gap(text, trial, &program, known, (end, trial.end().0))?;
    put_others(text, trial, known);
    if known.left == 0 {
        text.put("the search was stopped: it takes too long\n");
    }
    Ok(())
}
