//! What objects that were placed show: the addresses of names. Those that are taken back again lose theirs.
use crate::candidates::{Candidate, Trial};
use aout_core::File;
use origins::{has_slots, tell_data, tell_defined, tell_text};
use std::alloc::{AllocError, Global};

/// An object that was placed: its text is at an address, and its data at a byte of the program's data, if that is known.
#[derive(Clone, Copy)]
pub(crate) struct Row {
    /// The number of the candidate.
    pub(crate) candidate: usize,
    /// Which of the files of the candidate it is.
    pub(crate) file: usize,
    pub(crate) text: u16,
    pub(crate) place: Option<u16>,
    /// How far its bss is moved, if a word shows it.
    pub(crate) bss: Option<u16>,
}

/// An object that was placed, and the names of which nothing was known before.
#[derive(Drop)]
pub(crate) struct Placed {
    pub(crate) row: Row,
    untold: Vec<u16>,
}

/// The addresses of names that the words of objects show, and which objects were placed.
#[derive(Drop)]
pub(crate) struct Known {
    alloc: Global,
    /// The moves of one object, and the address of each name, by its number.
    pub(crate) told: Vec<Option<u16>>,
    /// How many of the files of each candidate are placed.
    used: Vec<usize>,
    /// How many words may be compared.
    pub(crate) left: u64,
}

/// Whether the words and the names of an object agree with the addresses known at an address of text, and at a byte of data if it is given;
/// they are entered.
fn agrees(
    table: &mut [Option<u16>],
    program: &File,
    candidate: &Candidate,
    text: u16,
    place: Option<u16>,
) -> bool {
    let (object, names) = (&candidate.object, candidate.names.as_slice());
    if !has_slots(table, names) || !tell_text(table, names, program, object, text) {
        return false;
    }
    if let Some(place) = place
        && !tell_data(table, names, program, object, place)
    {
        return false;
    }
    defines(table, candidate)
}

/// Whether the names that an object defines agree with the addresses known; they are entered.
pub(crate) fn defines(table: &mut [Option<u16>], candidate: &Candidate) -> bool {
    let (symbols, names) = (
        candidate.object.file().symbols(),
        candidate.names.as_slice(),
    );
    symbols.len() <= names.len() && has_slots(table, names) && tell_defined(table, names, symbols)
}

impl Known {
    pub(crate) fn new(trial: &Trial<'_>, left: u64) -> Result<Known, AllocError> {
        let alloc = trial.alloc;
        Ok(Known {
            alloc,
            told: vec![in alloc; None; 3 + trial.names.min(65534)]?,
            used: vec![in alloc; 0; trial.all.len()]?,
            left,
        })
    }

    /// The same, for a search that may place objects by chance.
    pub(crate) fn copy(&self) -> Result<Known, AllocError> {
        let (mut told, mut used) = (Vec::new(self.alloc), Vec::new(self.alloc));
        told.extend_from_slice(&self.told)?;
        used.extend_from_slice(&self.used)?;
        Ok(Known {
            alloc: self.alloc,
            told,
            used,
            left: self.left,
        })
    }

    pub(crate) fn charge(&mut self, words: usize) {
        self.left = self.left.saturating_sub(words as u64);
    }

    /// The address of the name of a number, if it is known.
    pub(crate) fn address(&self, name: u16) -> Option<u16> {
        self.told.get(3 + usize::from(name)).copied().flatten()
    }

    /// How many of the files of a candidate are placed.
    pub(crate) fn used(&self, number: usize) -> usize {
        self.used.get(number).copied().unwrap_or(0)
    }

    /// Forgets the moves of the last object, and returns the names of another one of which nothing is known.
    pub(crate) fn begin(&mut self, candidate: &Candidate) -> Result<Vec<u16>, AllocError> {
        let mut untold = Vec::new(self.alloc);
        for name in &candidate.names {
            if self.address(*name).is_none() {
                untold.push(*name)?;
            }
        }
        for n in 0..3 {
            if let Some(slot) = self.told.get_mut(n) {
                *slot = None;
            }
        }
        Ok(untold)
    }

    /// Forgets the addresses of names.
    pub(crate) fn forget(&mut self, names: &[u16]) {
        for name in names {
            if let Some(slot) = self.told.get_mut(3 + usize::from(*name)) {
                *slot = None;
            }
        }
    }

    /// Places an object at an address of text, and at a byte of data if it is given, if it agrees with what is known.
    pub(crate) fn place(
        &mut self,
        trial: &Trial<'_>,
        number: usize,
        text: u16,
        place: Option<u16>,
    ) -> Result<Option<Placed>, AllocError> {
        let Some(candidate) = trial.all.get(number) else {
            return Ok(None);
        };
        let file = self.used(number);
        if file >= candidate.files.len() {
            return Ok(None);
        }
        self.charge(candidate.names.len());
        self.charge(candidate.text_size() / 2);
        self.charge(candidate.data_size() / 2);
        let untold = self.begin(candidate)?;
        if !agrees(&mut self.told, trial.program, candidate, text, place) {
            self.forget(&untold);
            return Ok(None);
        }
        if let Some(used) = self.used.get_mut(number) {
            *used = file.saturating_add(1);
        }
        let row = Row {
            candidate: number,
            file,
            text,
            place,
            bss: self.told.get(2).copied().flatten(),
        };
        Ok(Some(Placed { row, untold }))
    }

    pub(crate) fn take_back(&mut self, placed: &Placed) {
        self.forget(&placed.untold);
        if let Some(used) = self.used.get_mut(placed.row.candidate) {
            *used = placed.row.file;
        }
    }
}
