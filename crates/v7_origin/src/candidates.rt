//! The objects that are tried. Those that are equal but for their paths are one candidate.
use crate::known::Row;
use crate::lines::path_of;
use crate::reading::Source;
use crate::scanning::work_of;
use aout_core::{File, Name, Object, Symbol};
use indexmap::IndexMap;
use origins::places;
use std::alloc::{AllocError, Global};

/// How many places of an object are kept.
const MOST_PLACES: usize = 1024;

/// An object that is tried.
#[derive(Drop)]
pub(crate) struct Candidate {
    pub(crate) object: Object,
    /// A number that equal objects share.
    checksum: u32,
    /// The numbers of the files that have it.
    pub(crate) files: Vec<usize>,
    /// The number of each symbol's name, among the names of all objects.
    pub(crate) names: Vec<u16>,
    /// At how many places it fits, if nothing is known of names; `None` if it was not tried.
    pub(crate) count: Option<usize>,
    /// These places; none, if they are too many to be kept.
    pub(crate) places: Vec<u16>,
}

impl Candidate {
    pub(crate) fn text_size(&self) -> usize {
        usize::from(self.object.file().header().text_size)
    }

    pub(crate) fn data_size(&self) -> usize {
        usize::from(self.object.file().header().data_size)
    }

    /// Whether it has no words: nothing of it can be found.
    pub(crate) fn is_empty(&self) -> bool {
        self.text_size() == 0 && self.data_size() == 0
    }

    /// How many of its words a link leaves alone.
    pub(crate) fn still_words(&self) -> usize {
        let file = self.object.file();
        file.text_reloc()
            .iter()
            .chain(file.data_reloc())
            .filter(|reloc| reloc.0 == 0)
            .count()
    }

    /// Whether its text may be at an address.
    pub(crate) fn may_be_at(&self, text: u16) -> bool {
        self.count.is_none_or(|count| count > self.places.len())
            || self.places.binary_search(&text).is_ok()
    }
}

/// A program, the files that were read, and the candidates among them.
#[derive(Drop)]
pub(crate) struct Trial<'a> {
    pub(crate) alloc: Global,
    pub(crate) program: &'a File,
    pub(crate) sources: &'a [Source],
    pub(crate) all: Vec<Candidate>,
    /// How many names they have.
    pub(crate) names: usize,
}

impl<'a> Trial<'a> {
    /// The path of one of the files that have a candidate.
    pub(crate) fn path(&self, candidate: &Candidate, file: usize) -> &'a str {
        match candidate.files.get(file) {
            Some(number) => path_of(self.sources, *number),
            None => "",
        }
    }

    /// Where the text of a row ends, and its data.
    pub(crate) fn end_of(&self, row: &Row) -> (usize, usize) {
        let (text, data) = self.all.get(row.candidate).map_or(
            (0, 0),
            |candidate| (candidate.text_size(), candidate.data_size()),
        );
        (
            usize::from(row.text).saturating_add(text),
            usize::from(row.place.unwrap_or(0)).saturating_add(data),
        )
    }

    /// Where the text of the program ends, and its data.
    pub(crate) fn end(&self) -> (usize, usize) {
        let header = self.program.header();
        (usize::from(header.text_size), usize::from(header.data_size))
    }
}

/// A number by which most objects that are not equal differ.
fn checksum_of(file: &File) -> u32 {
    let mut sum = u32::from(file.header().bss_size);
    for word in file.text_words().iter().chain(file.data_words()) {
        sum = sum.wrapping_mul(16_777_619) ^ u32::from(*word);
    }
    sum
}

fn is_equal(one: &File, other: &File) -> bool {
    one.header().bss_size == other.header().bss_size
        && one.text_words() == other.text_words()
        && one.data_words() == other.data_words()
        && one.text_reloc() == other.text_reloc()
        && one.data_reloc() == other.data_reloc()
        && one.symbols() == other.symbols()
}

/// The number of a name. A new one is entered; after 65,533 names all others have one number.
fn number_of(names: &mut IndexMap<Name, ()>, name: Name) -> Result<u16, AllocError> {
    let number = match names.get_index_of(&name) {
        Some(number) => number,
        None => {
            let number = names.len();
            names.insert(name, ())?;
            number
        }
    };
    Ok(number.min(65533) as u16)
}

/// The numbers of the names of externals; that of a local is 0, since no word refers to its name.
fn numbers_of(
    alloc: Global,
    names: &mut IndexMap<Name, ()>,
    symbols: &[Symbol],
) -> Result<Vec<u16>, AllocError> {
    let mut numbers = Vec::new(alloc);
    for symbol in symbols {
        let number = if symbol.is_external() {
            number_of(names, symbol.name)?
        } else {
            0
        };
        numbers.push(number)?;
    }
    Ok(numbers)
}

/// How often an object fits, and where, unless that takes more work than is left.
fn places_of(
    alloc: Global,
    program: &File,
    object: &Object,
    left: &mut u64,
) -> Result<(Option<usize>, Vec<u16>), AllocError> {
    if object.file().text_words().is_empty() {
        return Ok((Some(0), Vec::new(alloc)));
    }
    let work = work_of(program, object, left);
    if work > *left {
        *left = left.saturating_sub(*left / 16);
        return Ok((None, Vec::new(alloc)));
    }
    *left -= work;
    let places = places(alloc, program, object)?;
    let count = Some(places.len());
    Ok(if places.len() > MOST_PLACES {
        (count, Vec::new(alloc))
    } else {
        (count, places)
    })
}

/// The candidates that objects are, of all files but the first. `left` is how many words may be compared to find where each fits.
pub(crate) fn trial_of<'a>(
    alloc: Global,
    program: &'a File,
    sources: &'a [Source],
    objects: Vec<Object>,
    left: &mut u64,
) -> Result<Trial<'a>, AllocError> {
    let mut all: Vec<Candidate> = Vec::new(alloc);
    let mut names = IndexMap::new(alloc);
    let mut file = 0usize;
    for object in objects {
        file = file.saturating_add(1);
        let checksum = checksum_of(object.file());
        let equal = all.iter().position(|other| other.checksum == checksum
            && is_equal(other.object.file(), object.file()));
        if let Some(equal) = equal
            && let Some(equal) = all.get_mut(equal)
        {
            equal.files.push(file)?;
            continue;
        }
        let (count, places) = places_of(alloc, program, &object, left)?;
        all.push(Candidate {
            names: numbers_of(alloc, &mut names, object.file().symbols())?,
            object,
            checksum,
            files: vec![in alloc; file; 1]?,
            count,
            places,
        })?;
    }
    Ok(Trial {
        alloc,
        program,
        sources,
        all,
        names: names.len().min(65534),
    })
}
