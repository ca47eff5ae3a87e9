//! The words of an object that lead to a symbol, each with its line and the label before that.
ghost use Rattle.std.specs.Prelude.{◌≡◌, ◌++◌, ◌∷◌, [], filter, slice_get, Some, IfOk, OnOk};
ghost use Rattle.disassemblies.specs.Starts.{starts};
ghost use Rattle.instructions.specs.declared.unix.Decoder.TheVariants.{Unix};
ghost use Rattle.std.specs.{List.{flat_map, Sorted.IsSortedByKey}, Ordering.nat_cmp};
ghost use Rattle.link_maps.specs.{Leads.{near_to, reference_if, references_to}, internal.Keys.{has_key, key_of}};
ghost use Rattle.link_maps.specs.References.{address_in, is_function, line_of, reference_at, segment_of_part};

use crate::keys::{sort_by_key, symbol_key, with_key};
use crate::labels::{Labels, functions_in, label_before};
use crate::leads::{Aim, Lead, leads_in, linked_target};
use crate::near::{near_in, near_of};
use aout_core::{File, Header, Part, Segment, Symbol};
use disassemblies::{NamedFile, line_start, line_starts, put_line_text};
use instructions::{Decoder, Reference};
use std::alloc::{AllocError, Global};
use std::marker::Model;
use texts::Text;

/// A word that leads to a symbol.
#[derive(Clone, Copy, Debug)]
pub struct ReferringWord {
    pub part: Part,
    /// The place of the word in the part, in bytes.
    pub offset: u16,
    /// The place at which the line begins that has the word: an instruction or a plain word of text. A word of data is a line.
    pub line: u16,
    /// The nearest label of the object where the line begins or before it, in the same segment, with the bytes between them. In text that
    /// of a function comes first.
    pub before: Option<Reference>,
    /// How many bytes beyond the symbol the word leads, if it may reach what the symbol names; 0 for one that leads to the symbol.
    pub inside: u16,
}

/// The words that lead to a symbol, and those that may reach what it names: they lead beyond it, and it is the label before that. In the
/// order of their places, text before data.
#[derive(Debug, Drop)]
pub struct Words {
    pub references: Vec<ReferringWord>,
    pub near: Vec<ReferringWord>,
}

fn segment_of(part: Part) -> Segment
    ensures { result ≡ segment_of_part part }
{
    match part {
        Part::Text => Segment::TextSeg,
        Part::Data => Segment::DataSeg,
    }
}

/// The address in its object of what is so many bytes after the first of a part.
pub(crate) fn address_in(file: &File, part: Part, offset: u16) -> u16
    ensures { result ≡ address_in file.now part offset }
{
    match part {
        Part::Text => offset,
        Part::Data => ((usize::from(offset) + file.header().data_start()) % 65536) as u16,
    }
}

/// The place at which the line begins that has a word, both in bytes.
pub(crate) fn line_of(starts: &[bool], part: Part, offset: u16) -> u16
    ensures { result ≡ line_of starts.now part offset }
{
    match part {
        Part::Text => (2 * line_start(starts, usize::from(offset / 2))) as u16,
        Part::Data => offset,
    }
}

/// Appends the text of the line that has a word of text: an instruction or a plain word, with the names of the object. For a
/// word of data it appends nothing.
pub fn put_line_of(text: &mut Text, named: &NamedFile<'_>, reference: &ReferringWord) {
    let place = usize::from(reference.line / 2);
    if matches!(reference.part, Part::Text) && place < named.file().text_words().len() {
        put_line_text(text, Decoder::Unix, named, place);
    }
}

/// An object whose lines are found by the words in them, its labels by their addresses, and its words that lead somewhere.
#[derive(Drop)]
pub(crate) struct LinedFile<'a> {
    file: &'a File,
    line_starts: Vec<bool>,
    labels: Labels<'a>,
    /// In the order of their keys, as are those that lead beyond a label.
    all_leads: Vec<Lead>,
    all_near: Vec<Lead>,
}

impl<'a> Model for LinedFile<'a> {
    ghost use Rattle.std.specs.Prelude.{◌≡◌};
    ghost use Rattle.aout_core.specs.Contents.{Contents};
    ghost use Rattle.disassemblies.specs.Starts.{starts};
    ghost use Rattle.instructions.specs.declared.unix.Decoder.TheVariants.{Unix};
    ghost use Rattle.link_maps.specs.{Leads.{leads, near_leads}, internal.Keys.{AreByKey}};

    ghost Value = { Contents };

    ghost view = { λ l. l.file.now };

    ghost invariant = { λ l. (l.line_starts.items ≡ starts Unix l.file.now) × (l.labels.names.symbols.now ≡ l.file.now.symbols)
        × AreByKey l.file.now.symbols (leads (starts Unix l.file.now) l.file.now) l.all_leads.items
        × AreByKey l.file.now.symbols (near_leads (starts Unix l.file.now) l.file.now) l.all_near.items };
}

impl<'a> LinedFile<'a> {
    /// An object with its functions, after its lines are found and its labels sorted. An error: out of memory.
    pub(crate) fn new(
        alloc: Global,
        file: &'a File,
        functions: &'a [Symbol],
    ) -> Result<LinedFile<'a>, AllocError>
        requires { functions.now ≡ filter is_function file.now.symbols }
        ensures { IfOk result (λ l. l ≡ file.now) }
    {
        let line_starts = line_starts(alloc, Decoder::Unix, file)?;
        let labels = Labels::new(alloc, file.symbols(), functions)?;
        let mut all_leads = leads_in(alloc, file, &line_starts)?;
        let mut all_near = near_in(alloc, &labels, &all_leads)?;
        sort_by_key(&mut all_leads, file.symbols())?;
        sort_by_key(&mut all_near, file.symbols())?;
        Ok(LinedFile {
            file,
            line_starts,
            labels,
            all_leads,
            all_near,
        })
    }

    /// Appends the word of a part so many bytes after the first, which leads so many bytes beyond a symbol.
    fn put_word(
        &self,
        found: &mut Vec<ReferringWord>,
        part: Part,
        offset: u16,
        inside: u16,
    ) -> Result<(), AllocError>
        ensures { OnOk result (found.new.items ≡ found.old.items
            ++ reference_at (starts Unix self.now) self.now part offset inside ∷ []) }
    {
        let line = line_of(&self.line_starts, part, offset);
        let address = address_in(self.file, part, line);
        let before = self.labels.before(segment_of(part), address);
        found.push(ReferringWord {
            part,
            offset,
            line,
            before,
            inside,
        })?;
        Ok(())
    }

    /// Appends a word that leads somewhere, if it leads to the symbol with a number.
    fn put_if(
        &self,
        found: &mut Vec<ReferringWord>,
        number: usize,
        symbol: &Symbol,
        lead: &Lead,
    ) -> Result<(), AllocError>
        ensures { OnOk result (found.new.items ≡ found.old.items
            ++ reference_if (starts Unix self.now) self.now number symbol.now lead.now) }
    {
        if !lead.aim.leads_to(number, symbol) {
            return Ok(());
        }
        self.put_word(found, lead.part, lead.offset, lead.inside)
    }

    /// Those of these words in the order of their keys that lead to the symbol with a number.
    fn found_in(
        &self,
        alloc: Global,
        leads: &[Lead],
        number: usize,
        symbol: &Symbol,
    ) -> Result<Vec<ReferringWord>, AllocError>
        requires { IsSortedByKey (key_of self.now.symbols) nat_cmp leads.now }
        ensures { IfOk result (λ words. words.items ≡ flat_map (reference_if (starts Unix self.now) self.now number symbol.now)
            (filter (has_key self.now.symbols number symbol.now) leads.now)) }
    {
        let mut found = Vec::new(alloc);
        let key = symbol_key(number, symbol);
        for lead in with_key(leads, self.file.symbols(), key) {
            self.put_if(&mut found, number, symbol, lead)?;
        }
        Ok(found)
    }

    /// The words of the object that lead to the symbol with a number, in the order of their places, text before data.
    ///
    /// An error: out of memory.
    pub(crate) fn references_to(
        &self,
        alloc: Global,
        number: usize,
        symbol: &Symbol,
    ) -> Result<Vec<ReferringWord>, AllocError>
        requires { slice_get self.now.symbols number ≡ Some symbol.now }
        ensures { IfOk result (λ words.
            words.items ≡ references_to (starts Unix self.now) self.now number symbol.now) }
    {
        self.found_in(alloc, &self.all_leads, number, symbol)
    }

    /// Those that may reach what it names.
    ///
    /// An error: out of memory.
    pub(crate) fn near_to(
        &self,
        alloc: Global,
        number: usize,
        symbol: &Symbol,
    ) -> Result<Vec<ReferringWord>, AllocError>
        requires { slice_get self.now.symbols number ≡ Some symbol.now }
        ensures { IfOk result (λ words.
            words.items ≡ near_to (starts Unix self.now) self.now number symbol.now) }
    {
        self.found_in(alloc, &self.all_near, number, symbol)
    }

    /// Appends a word of the text of a linked file, if it leads to an address of a segment, or beyond it and within the segment.
    fn put_linked(
        &self,
        words: &mut Words,
        segment: Segment,
        address: u16,
        offset: u16,
        value: u16,
    ) -> Result<(), AllocError> {
        let line = line_of(&self.line_starts, Part::Text, offset);
        let Some(target) = linked_target(self.file, segment, line, offset, value) else {
            return Ok(());
        };
        if target == address {
            return self.put_word(&mut words.references, Part::Text, offset, 0);
        }
        let lead = Lead {
            part: Part::Text,
            offset,
            aim: Aim::Addressed(segment, target),
            inside: 0,
        };
        match near_of(&self.labels, &lead) {
            Some(near)
                if target.wrapping_sub(near.inside) == address
                    && has_target(self.file.header(), segment, target) => {
                self.put_word(&mut words.near, Part::Text, offset, near.inside)
            }
            _ => Ok(()),
        }
    }
}

/// Whether a segment of a linked file has an address.
fn has_target(header: &Header, segment: Segment, address: u16) -> bool {
    let (at, data) = (usize::from(address), header.data_start());
    let bss = data + usize::from(header.data_size);
    match segment {
        Segment::TextSeg => address < header.text_size,
        Segment::DataSeg => data <= at && at < bss,
        _ => bss <= at && at < bss + usize::from(header.bss_size),
    }
}

/// The words of an object that lead to its symbol with a number, and those that may reach what it names.
///
/// An error: out of memory.
pub fn words_to(alloc: Global, file: &File, number: usize) -> Result<Words, AllocError> {
    let Some(symbol) = file.symbols().get(number) else {
        return Ok(Words {
            references: Vec::new(alloc),
            near: Vec::new(alloc),
        });
    };
    let functions = functions_in(alloc, file.symbols())?;
    let lined = LinedFile::new(alloc, file, &functions)?;
    Ok(Words {
        references: lined.references_to(alloc, number, symbol)?,
        near: lined.near_to(alloc, number, symbol)?,
    })
}

/// The words of a linked file that lead to an address of a segment, as far as its text shows: branches, and operands of modes 37, 67 and
/// 77. Those that may reach what a symbol there names lead beyond it in its segment.
///
/// An error: out of memory.
pub fn words_at(
    alloc: Global,
    file: &File,
    segment: Segment,
    address: u16,
) -> Result<Words, AllocError> {
    let mut words = Words {
        references: Vec::new(alloc),
        near: Vec::new(alloc),
    };
    if !matches!(
        segment,
        Segment::TextSeg | Segment::DataSeg | Segment::BssSeg
    ) {
        return Ok(words);
    }
    let functions = functions_in(alloc, file.symbols())?;
    let lined = LinedFile::new(alloc, file, &functions)?;
    for number in 0..file.text_words().len() {
        let at = file.placed_word(Part::Text, number);
        lined.put_linked(&mut words, segment, address, at.address, at.word)?;
    }
    Ok(words)
}

/// The word of a part of an object so many bytes after the first, with its line and the label before that.
///
/// An error: out of memory.
pub fn word_at(
    alloc: Global,
    file: &File,
    part: Part,
    offset: u16,
) -> Result<ReferringWord, AllocError> {
    let line = line_of(&line_starts(alloc, Decoder::Unix, file)?, part, offset);
    let address = address_in(file, part, line);
    Ok(ReferringWord {
        part,
        offset,
        line,
        before: label_before(alloc, file.symbols(), segment_of(part), address)?,
        inside: 0,
    })
}
