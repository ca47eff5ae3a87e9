//! Objects without words: they come into an order if they define a name which the others leave undefined.
use crate::candidates::{Candidate, Trial};
use crate::known::{Known, Row};
use aout_core::Segment;
use std::alloc::AllocError;

/// The names that objects leave undefined, and those that they define, by their numbers.
#[derive(Drop)]
struct Marks {
    wanted: Vec<bool>,
    defined: Vec<bool>,
}

fn mark(marks: &mut [bool], name: u16) {
    if let Some(mark) = marks.get_mut(usize::from(name)) {
        *mark = true;
    }
}

impl Marks {
    /// Adds the names of an object.
    fn add(&mut self, candidate: &Candidate) {
        let symbols = candidate.object.file().symbols();
        for (symbol, name) in symbols.iter().zip(&candidate.names) {
            if !symbol.is_external() {
                continue;
            }
            if symbol.segment() == Segment::Undefined {
                mark(&mut self.wanted, *name);
            } else {
                mark(&mut self.defined, *name);
            }
        }
    }

    /// Whether an object defines a name that others leave undefined.
    fn need(&self, candidate: &Candidate) -> bool {
        let symbols = candidate.object.file().symbols();
        symbols.iter().zip(&candidate.names).any(|(symbol, name)| {
            let name = usize::from(*name);
            symbol.is_external()
                && symbol.segment() != Segment::Undefined
                && self.wanted.get(name).copied() == Some(true)
                && self.defined.get(name).copied() == Some(false)
        })
    }
}

/// How far the bss of an object is moved, by the addresses of its names that the words of others show.
fn bss_move(known: &Known, candidate: &Candidate) -> Option<u16> {
    let symbols = candidate.object.file().symbols();
    for (symbol, name) in symbols.iter().zip(&candidate.names) {
        if symbol.is_external()
            && symbol.segment() == Segment::BssSeg
            && let Some(address) = known.address(*name)
        {
            return Some(address.wrapping_sub(symbol.value));
        }
    }
    None
}

/// Where the bss of a row begins, if a word shows it.
fn bss_start(trial: &Trial<'_>, row: &Row) -> Option<u16> {
    let header = trial.all.get(row.candidate)?.object.file().header();
    let size = header.text_size.wrapping_add(header.data_size);
    Some(row.bss?.wrapping_add(size))
}

/// The rows with that of an object of bss alone: before the first row whose bss begins after its own, or last.
fn with_late(
    trial: &Trial<'_>,
    known: &Known,
    rows: &[Row],
    number: usize,
    candidate: &Candidate,
) -> Result<Vec<Row>, AllocError> {
    let mut row = Row {
        candidate: number,
        file: 0,
        text: 0,
        place: None,
        bss: bss_move(known, candidate),
    };
    let start = bss_start(trial, &row);
    let after = rows.iter().position(|other| match (start, bss_start(trial, other)) {
        (Some(start), Some(other)) => start < other,
        _ => false,
    });
    let (before, after) = rows.split_at(after.unwrap_or(rows.len()).min(rows.len()));
    row.text = after.first().map_or(0, |other| other.text);
    let mut more = Vec::new(trial.alloc);
    more.extend_from_slice(before)?;
    more.push(row)?;
    more.extend_from_slice(after)?;
    Ok(more)
}

/// The rows with those of the objects without words that they need.
pub(crate) fn with_all_late(
    trial: &Trial<'_>,
    known: &Known,
    rows: Vec<Row>,
) -> Result<Vec<Row>, AllocError> {
    let (alloc, mut rows) = (trial.alloc, rows);
    let mut marks = Marks {
        wanted: vec![in alloc; false; trial.names]?,
        defined: vec![in alloc; false; trial.names]?,
    };
    for row in &rows {
        if let Some(candidate) = trial.all.get(row.candidate) {
            marks.add(candidate);
        }
    }
    for (number, candidate) in trial.all.iter().enumerate() {
        if candidate.is_empty() && marks.need(candidate) {
            marks.add(candidate);
            rows = with_late(trial, known, &rows, number, candidate)?;
        }
    }
    Ok(rows)
}
