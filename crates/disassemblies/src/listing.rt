//! A file as a listing, in the form that `read_listing` of `listings` reads, with remarks on its instructions, its labels and what its
//! relocation words say. Only tested: the remarks.
ghost use Rattle.std.specs.Prelude.{◌≡◌, Ok, IfOk};
ghost use Rattle.listings.specs.{Reading.read, declared.draft.Addresses.TheVariants.Compared};

use crate::label::put_labels;
use crate::strings::put_string_in;
use crate::sweep::Sweep;
use crate::word_text::put_word_text;
use aout_core::{Part, Segment, Symbol};
use instructions::is_relocated;
use listings::{Remark, write_cut_listing, write_listing};
use std::alloc::{AllocError, Global};
use symtools::letter;
use texts::Text;

/// How many words a segment has at most.
pub const SEGMENT_WORDS: u16 = 32768;

/// A file that is listed, with what is remarked of it.
#[derive(Clone, Copy)]
struct Explained<'a> {
    sweep: &'a Sweep<'a>,
    /// Lines before the file, each without its slash.
    notes: &'a [Vec<u8>],
    /// Lines after it.
    findings: &'a [Vec<u8>],
}

/// Puts the labels of the line that begins at a place of the text, or of its end.
fn put_text_labels(sweep: &Sweep<'_>, labels: &mut Text, place: usize) {
    let length = match sweep.line_from(place) {
        Some(line) => line.length() as u16,
        None if place == sweep.file().text_words().len() => 0,
        None => return,
    };
    let address = (place.wrapping_mul(2) % 65536) as u16;
    put_labels(labels, sweep.named(), Segment::TextSeg, address, length);
}

/// Puts the labels of a word of data, or of their end, where bss begins.
fn put_data_labels(sweep: &Sweep<'_>, labels: &mut Text, place: usize) {
    let file = sweep.file();
    let start = file.header().data_start();
    let address = (start.wrapping_add(place.wrapping_mul(2)) % 65536) as u16;
    if place < file.data_words().len() {
        return put_labels(labels, sweep.named(), Segment::DataSeg, address, 1);
    }
    put_labels(labels, sweep.named(), Segment::DataSeg, address, 0);
    put_labels(
        labels,
        sweep.named(),
        Segment::BssSeg,
        address,
        SEGMENT_WORDS,
    );
}

/// Puts the instruction that begins at a place of the text.
fn put_instruction(sweep: &Sweep<'_>, remark: &mut Text, place: usize) {
    if place < sweep.file().text_words().len()
        && let Some(line) = sweep.line_from(place)
    {
        sweep.put_remarked_text(remark, place, &line);
    }
}

/// Puts what the relocation word of a word of data says, or the string that begins there.
fn put_data_remark(sweep: &Sweep<'_>, remark: &mut Text, place: usize) {
    let file = sweep.file();
    if place >= file.data_words().len() {
        return;
    }
    let spot = file.placed_word(Part::Data, place);
    match spot.reloc {
        Some(reloc) if is_relocated(spot.reloc) => {
            put_word_text(remark, sweep.named(), spot.address, spot.word, reloc);
        }
        _ => put_string_in(remark, file.data_words(), place),
    }
}

impl Remark for Explained<'_> {
    fn notes(&self) -> &[Vec<u8>] {
        self.notes
    }

    fn findings(&self) -> &[Vec<u8>] {
        self.findings
    }

    fn put_labels(&self, labels: &mut Text, part: Part, place: usize) {
        match part {
            Part::Text => put_text_labels(self.sweep, labels, place),
            Part::Data => put_data_labels(self.sweep, labels, place),
        }
    }

    fn put_word(&self, remark: &mut Text, part: Part, place: usize) {
        match part {
            Part::Text => put_instruction(self.sweep, remark, place),
            Part::Data => put_data_remark(self.sweep, remark, place),
        }
    }

    fn put_symbol(&self, remark: &mut Text, symbol: &Symbol) {
        remark.put_byte(letter(symbol));
    }
}

/// The listing of a file with explanations, and with notes before it and findings after it. Reading the listing gives the file. (own
/// choice)
///
/// Errors: `AllocError` if memory runs out.
pub fn write_explained(
    alloc: Global,
    sweep: &Sweep<'_>,
    notes: &[Vec<u8>],
    findings: &[Vec<u8>],
) -> Result<Vec<u8>, AllocError>
    ensures { IfOk result (λ v. read Compared v.items ≡ Ok sweep.now) }
{
    let remarks = Explained {
        sweep,
        notes,
        findings,
    };
    write_listing(alloc, sweep.file(), &remarks)
}

/// The listing of a file with its first relocation words alone, without notes.
///
/// Errors: `AllocError` if memory runs out.
pub fn write_remains(
    alloc: Global,
    sweep: &Sweep<'_>,
    relocs: usize,
) -> Result<Vec<u8>, AllocError> {
    let remarks = Explained {
        sweep,
        notes: &[],
        findings: &[],
    };
    write_cut_listing(alloc, sweep.file(), relocs, &remarks)
}
