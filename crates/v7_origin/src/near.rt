//! Objects that are nearly in a gap: the words that differ, as instructions side by side.
use crate::candidates::{Candidate, Trial};
use crate::known::{Known, defines};
use crate::scanning::differing;
use aout_core::File;
use disassemblies::{NamedFile, line_start, line_starts, put_line_text};
use host::Path;
use instructions::Decoder;
use origins::{has_slots, tell_word};
use std::alloc::AllocError;
use texts::Text;

/// How many words may differ, unless an object is as long as the gap.
const MOST_WORDS: usize = 8;

/// How many have to be equal, unless it is.
const FEW_WORDS: usize = 2;

/// How many lines of an object are shown, and how many objects of a gap.
const MOST_LINES: usize = 24;

const MOST_NEAR: usize = 3;

/// Where in a gap an object differs least, if it is near: how many words are equal that a link leaves alone, and the address. One that has
/// a row may not differ.
fn nearest(
    trial: &Trial<'_>,
    known: &mut Known,
    candidate: &Candidate,
    has_row: bool,
    gap: (usize, usize),
) -> Option<(usize, usize)> {
    let object = candidate.object.file();
    let (words, relocs) = (object.text_words(), object.text_reloc());
    let room = gap
        .1
        .checked_sub(gap.0)?
        .checked_sub(candidate.text_size())?;
    if words.is_empty() || (room != 0 && candidate.count.is_some_and(|count| count > 1)) {
        return None;
    }
    let still = relocs.iter().filter(|reloc| reloc.0 == 0).count();
    let mut most = match room {
        _ if has_row => 0,
        0 => still / 2,
        _ => MOST_WORDS.min(still / 4),
    };
    known.charge(relocs.len());
    let mut best = None;
    for k in 0..room / 2 + 1 {
        if known.left == 0 {
            break;
        }
        let first = (gap.0 / 2).saturating_add(k);
        let there = trial.program.text_words().get(first..).unwrap_or(&[]);
        let (count, compared) = differing(words, relocs, there, most);
        known.charge(compared);
        let equal = still.saturating_sub(count);
        if count <= most && (equal >= FEW_WORDS || room == 0) {
            best = Some((equal, first.saturating_mul(2)));
            if count == 0 {
                break;
            }
            most = count.saturating_sub(1);
        }
    }
    best
}

/// The objects that are near in a gap, those of which most words are there first.
fn all_near(
    trial: &Trial<'_>,
    known: &mut Known,
    gap: (usize, usize),
) -> Result<Vec<(usize, usize, usize)>, AllocError> {
    let mut found = Vec::new(trial.alloc);
    for (number, candidate) in trial.all.iter().enumerate() {
        let has_row = known.used(number) != 0;
        if let Some((equal, at)) = nearest(trial, known, candidate, has_row, gap) {
            found.push((usize::MAX - equal, number, at))?;
        }
    }
    found.sort()?;
    Ok(found)
}

/// The words of a segment that disagree with the addresses known, if the object is there: those that a word shows are known at the next.
fn disagreeing(
    trial: &Trial<'_>,
    table: &mut [Option<u16>],
    candidate: &Candidate,
    own: u16,
    is_data: bool,
    first: usize,
) -> Result<Vec<usize>, AllocError> {
    let mut wrong = Vec::new(trial.alloc);
    let names = candidate.names.as_slice();
    if !has_slots(table, names) {
        return Ok(wrong);
    }
    let (object, program) = (candidate.object.file(), trial.program);
    let (words, relocs, all) = if is_data {
        (
            object.data_words(),
            object.data_reloc(),
            program.data_words(),
        )
    } else {
        (
            object.text_words(),
            object.text_reloc(),
            program.text_words(),
        )
    };
    let there = all.get(first..).unwrap_or(&[]);
    for i in 0..words.len() {
        let (Some(reloc), Some(word)) = (relocs.get(i), there.get(i)) else {
            break;
        };
        if !tell_word(table, names, words[i], *reloc, own, *word) {
            wrong.push(i)?;
        }
    }
    Ok(wrong)
}

/// Where the words of data differ, from a number of a word on, if the text shows where the data is.
fn wrong_data(
    trial: &Trial<'_>,
    known: &mut Known,
    candidate: &Candidate,
) -> Result<(usize, Vec<usize>), AllocError> {
    let own = known.told.get(1).copied().flatten();
    let start = (trial.program.header().data_start() % 65536) as u16;
    let text = candidate.object.file().header().text_size;
    let place = own.map(|own| own.wrapping_add(text).wrapping_sub(start));
    match (own, place) {
        (Some(own), Some(place)) if place % 2 == 0 => {
            let first = usize::from(place / 2);
            let wrong = disagreeing(trial, &mut known.told, candidate, own, true, first)?;
            Ok((first, wrong))
        }
        _ => Ok((0, Vec::new(trial.alloc))),
    }
}

/// Puts the lines that have these words of text, the program's and the object's side by side.
fn put_text_lines(
    text: &mut Text,
    program: &NamedFile<'_>,
    object: &NamedFile<'_>,
    first: usize,
    words: &[usize],
) -> Result<(), AllocError> {
    let alloc = text.allocator();
    let starts = line_starts(alloc, Decoder::Unix, object.file())?;
    let mut shown = None;
    let mut lines = 0usize;
    for word in words {
        let start = line_start(&starts, *word);
        if shown == Some(start) {
            continue;
        }
        shown = Some(start);
        lines = lines.saturating_add(1);
        if lines > MOST_LINES {
            text.put("        ..\n");
            break;
        }
        let place = first.saturating_add(start);
        let mut line = Text::new(alloc);
        if place < program.file().text_words().len() {
            put_line_text(&mut line, Decoder::Unix, program, place);
        }
        text.say(format_args!("        {:06o}  ", place.wrapping_mul(2)));
        text.put_at_left(27, line.so_far()?);
        text.put(" | ");
        if start < object.file().text_words().len() {
            put_line_text(text, Decoder::Unix, object, start);
        }
        text.put_byte(b'\n');
    }
    Ok(())
}

/// Puts words of data that differ, the program's and the object's side by side.
fn put_data(text: &mut Text, trial: &Trial<'_>, object: &File, first: usize, words: &[usize]) {
    let start = trial.program.header().data_start();
    for word in words.iter().take(MOST_LINES) {
        let place = first.saturating_add(*word);
        let address = start.wrapping_add(place.wrapping_mul(2));
        let one = trial.program.data_words().get(place).copied().unwrap_or(0);
        let other = object.data_words().get(*word).copied().unwrap_or(0);
        text.say(format_args!(
            "        {address:06o}  {one:06o}                      | {other:06o}\n"
        ));
    }
}

/// Puts an object that is near, with the words that differ.
fn put_near(
    text: &mut Text,
    trial: &Trial<'_>,
    program: &NamedFile<'_>,
    known: &mut Known,
    number: usize,
    at: usize,
) -> Result<(), AllocError> {
    let Some(candidate) = trial.all.get(number) else {
        return Ok(());
    };
    let own = (at % 65536) as u16;
    let untold = known.begin(candidate)?;
    if let Some(slot) = known.told.get_mut(0) {
        *slot = Some(own);
    }
    let words = disagreeing(trial, &mut known.told, candidate, own, false, at / 2)?;
    let (first, in_data) = wrong_data(trial, known, candidate)?;
    let is_elsewhere = !defines(&mut known.told, candidate);
    known.forget(&untold);
    let end = at.saturating_add(candidate.text_size());
    let path = Path(trial.path(candidate, 0));
    text.say(format_args!("    near {path}, at {at:06o}-{end:06o}: "));
    match words.len().saturating_add(in_data.len()) {
        0 if known.used(number) != 0 => text.put("no word differs, and it has a row already\n"),
        0 if is_elsewhere => {
            text.put("no word differs, but a name that it defines has another address\n");
        }
        0 if candidate.count == Some(0) => {
            text.put("no word of its text differs, but its data is nowhere\n");
        }
        0 => text.put("no word differs\n"),
        1 => text.put("1 word differs\n"),
        count => text.say(format_args!("{count} words differ\n")),
    }
    let object = NamedFile::new(trial.alloc, candidate.object.file())?;
    put_text_lines(text, program, &object, at / 2, &words)?;
    put_data(text, trial, object.file(), first, &in_data);
    Ok(())
}

/// Puts the objects that are near in a gap.
pub(crate) fn put_all_near(
    text: &mut Text,
    trial: &Trial<'_>,
    program: &NamedFile<'_>,
    known: &mut Known,
    gap: (usize, usize),
) -> Result<(), AllocError> {
    let found = all_near(trial, known, gap)?;
    for (_, number, at) in found.iter().take(MOST_NEAR) {
        put_near(text, trial, program, known, *number, *at)?;
    }
    Ok(())
}
