//! Reads a row of a listing into a draft.
ghost use Rattle.std.specs.{Prelude.{◌≡◌, ◌≢◌, ◌&&◌, not, option_to_list, Ok, IfErr, IsTrue}, Cmp.Lexicographic.pointwise, List.list_all};
ghost use Rattle.listings.specs.{Columns.row_of, internal.Rows.row_in, declared.fault.RowFault.TheVariants.Memory};
ghost use Rattle.listings.specs.declared.fault.Section.TheVariants.{InHeader, InText, InData, InSymbols};
ghost use Rattle.listings.specs.{declared.fault.Word.TheVariants.{Bss, Magic, Flag}, Octal.number};
ghost use Rattle.listings.specs.Reading.{in_column, is_decimal, is_digits, is_numbered, relocs_of, unnumbered, with_word, is_right};
ghost use Rattle.listings.specs.Reading.{word_entry, symbol_entry, entry_in, is_word, word_in, rank, first_in, opened, named_by, named};
ghost use Rattle.listings.specs.Reading.{is_head, has_head, is_label, begins_with_digit, row_read, own, next_after, passed};
ghost use Rattle.listings.specs.{MemoryWanted.IsEntry, internal.DraftParts.{segment_of, draft_of}, internal.Answers.{Found, Leaves}};
ghost use Rattle.aout_core.specs.Refusals.{refused};
ghost use Rattle.texts.specs.Lines.{lines_in};

use crate::columns::{Columns, columns_of, cut_column, cut_line, skip};
use crate::draft::{Addresses, FileDraft, SegmentDraft};
use crate::fault::{Reason, RowFault, Section, Word};
use crate::numbers::{name_at, number_at};
use aout_core::{Reloc, Symbol, data_start, is_magic};
use std::alloc::Global;

fn is_decimal(byte: u8) -> bool
    ensures { result ≡ is_decimal byte }
{
    byte >= b'0' && byte <= b'9'
}

fn are_decimal(bytes: &[u8]) -> bool
    ensures { result ≡ list_all is_decimal bytes.now }
{
    bytes.iter().all(|byte| is_decimal(*byte))
}

/// Whether a column consists of digits.
fn is_digits(column: &[u8]) -> bool
    ensures { result ≡ is_digits column.now }
{
    begins_with_digit(column) && are_decimal(column)
}

/// Whether the first column of a remark consists of digits. Such a remark on a word is a mistake.
pub fn is_numbered(remark: &[u8]) -> bool
    ensures { result ≡ is_numbered remark.now }
{
    is_digits(cut_column(skip(remark)).0)
}

/// Refuses a number in the column of a remark.
fn refuse_number(place: usize, remark: &[u8]) -> Result<(), RowFault>
    ensures found { Found (λ u. u) result (unnumbered place remark.now tt) }
    ensures no_memory { IfErr result (λ fault. fault ≢ Memory refused) }
{
    if is_digits(remark) {
        return Err(RowFault::Wrong(place, Reason::ExtraNumber));
    }
    Ok(())
}

/// A relocation word, if the file has relocation, and then a remark.
fn reloc_of(flag: u16, third: &[u8], fourth: &[u8]) -> Result<Option<Reloc>, RowFault>
    ensures found { Found (λ r. option_to_list r) result (relocs_of flag third.now fourth.now) }
    ensures no_memory { IfErr result (λ fault. fault ≢ Memory refused) }
{
    if flag == 0 {
        let number = number_at(2, third)?;
        refuse_number(3, fourth)?;
        Ok(Some(Reloc(number)))
    } else {
        refuse_number(2, third)?;
        Ok(None)
    }
}

/// Adds a word and its relocation word.
fn add_word(segment: &mut SegmentDraft, word: u16, reloc: Option<Reloc>) -> Result<(), RowFault>
    ensures { Leaves (segment_of segment.old) (segment_of segment.new) result
        (Ok (with_word (segment_of segment.old) word (option_to_list reloc))) }
{
    segment.words.push(word)?;
    match reloc {
        Some(reloc) => Ok(segment.relocs.push(reloc)?),
        None => Ok(()),
    }
}

/// Whether a word may have an address, if this one is next.
fn is_right(addresses: Addresses, at: u16, next: u16) -> bool
    ensures { result ≡ is_right addresses at next }
{
    match addresses {
        Addresses::Compared => at == next,
        Addresses::Computed => true,
    }
}

fn word_entry(
    addresses: Addresses,
    next: u16,
    flag: u16,
    segment: &mut SegmentDraft,
    columns: Columns,
) -> Result<(), RowFault>
    ensures { Leaves (segment_of segment.old) (segment_of segment.new) result
        (word_entry addresses next flag (segment_of segment.old) (row_in columns.entry)) }
{
    let at = number_at(0, columns.first)?;
    let word = number_at(1, columns.second)?;
    let reloc = reloc_of(flag, columns.third, columns.fourth)?;
    if segment.words.len() >= 32767 {
        return Err(RowFault::Wrong(0, Reason::TooManyWords));
    }
    if !is_right(addresses, at, next) {
        return Err(RowFault::Wrong(0, Reason::WrongAddress(next)));
    }
    add_word(segment, word, reloc)
}

/// Reads an entry of the symbol table.
fn symbol_entry(
    alloc: Global,
    next: u16,
    symbols: &mut Vec<Symbol>,
    columns: Columns,
) -> Result<(), RowFault>
    ensures { Leaves symbols.old.items symbols.new.items result
        (symbol_entry next symbols.old.items (row_in columns.entry)) }
{
    let number = number_at(0, columns.first)?;
    let name = name_at(alloc, 1, columns.second)?;
    let type_bits = number_at(2, columns.third)?;
    let value = number_at(3, columns.fourth)?;
    if symbols.len() >= 5461 {
        return Err(RowFault::Wrong(0, Reason::TooManySymbols));
    }
    if number != next {
        return Err(RowFault::Wrong(0, Reason::WrongNumber(next)));
    }
    let symbol = Symbol {
        name,
        type_bits,
        value,
    };
    Ok(symbols.push(symbol)?)
}

/// Reads a word of the text.
fn text_entry(draft: &mut FileDraft, columns: Columns) -> Result<(), RowFault>
    ensures { Leaves (draft_of draft.old) (draft_of draft.new) result
        (entry_in InText (draft_of draft.old) (row_in columns.entry)) }
{
    let next = draft.next;
    word_entry(
        draft.addresses,
        next,
        draft.flag,
        &mut draft.text_part,
        columns,
    )?;
    draft.next = next.wrapping_add(2);
    Ok(())
}

/// Reads a word of the data.
fn data_entry(draft: &mut FileDraft, columns: Columns) -> Result<(), RowFault>
    ensures { Leaves (draft_of draft.old) (draft_of draft.new) result
        (entry_in InData (draft_of draft.old) (row_in columns.entry)) }
{
    let next = draft.next;
    word_entry(
        draft.addresses,
        next,
        draft.flag,
        &mut draft.data_part,
        columns,
    )?;
    draft.next = next.wrapping_add(2);
    Ok(())
}

/// Reads a symbol.
fn table_entry(alloc: Global, draft: &mut FileDraft, columns: Columns) -> Result<(), RowFault>
    ensures { Leaves (draft_of draft.old) (draft_of draft.new) result
        (entry_in InSymbols (draft_of draft.old) (row_in columns.entry)) }
{
    let next = draft.next;
    symbol_entry(alloc, next, &mut draft.symbols, columns)?;
    draft.next = next.wrapping_add(1);
    Ok(())
}

/// Reads a row that begins with a digit.
fn entry_in(alloc: Global, draft: &mut FileDraft, columns: Columns) -> Result<(), RowFault>
    ensures left { Leaves (draft_of draft.old) (draft_of draft.new) result
        (entry_in draft.old.section (draft_of draft.old) (row_in columns.entry)) }
    ensures memory { IfErr result (λ fault. fault ≡ Memory refused → draft.old.section ≢ InHeader) }
{
    match draft.section {
        Section::InHeader => Err(RowFault::Wrong(0, Reason::NoSection)),
        Section::InText => text_entry(draft, columns),
        Section::InData => data_entry(draft, columns),
        Section::InSymbols => table_entry(alloc, draft, columns),
        Section::Ended => Err(RowFault::Wrong(0, Reason::AfterEnd)),
    }
}

fn is_word(column: &[u8], word: &[u8]) -> bool
    ensures { result ≡ is_word column.now word.now }
{
    column == word
}

fn word_of(columns: Columns) -> Word
    ensures { result ≡ word_in columns.entry.first.now }
{
    let first = columns.first;
    if is_word(first, b"text") {
        return Word::Text;
    }
    if is_word(first, b"data") {
        return Word::Data;
    }
    if is_word(first, b"symbols") {
        return Word::Symbols;
    }
    if is_word(first, b"bss") {
        return Word::Bss;
    }
    if is_word(first, b"entry") {
        return Word::Entry;
    }
    if is_word(first, b"unused") {
        return Word::Unused;
    }
    if is_word(first, b"magic") {
        return Word::Magic;
    }
    if is_word(first, b"flag") {
        return Word::Flag;
    }
    if is_word(first, b"end") {
        return Word::End;
    }
    Word::Unknown
}

/// The place of a section in a listing.
fn rank(section: Section) -> u8
    ensures { result ≡ rank section }
{
    match section {
        Section::InHeader => 0,
        Section::InText => 1,
        Section::InData => 2,
        Section::InSymbols => 3,
        Section::Ended => 4,
    }
}

/// The first address or number of a section.
fn first_in(section: Section, draft: &FileDraft) -> u16
    ensures { result ≡ first_in section (draft_of draft.now) }
{
    match section {
        Section::InData => (data_start(draft.magic, usize::from(draft.next)) % 65536) as u16,
        Section::InHeader | Section::InText | Section::InSymbols | Section::Ended => 0,
    }
}

fn open(draft: &mut FileDraft, section: Section) -> Result<(), RowFault>
    ensures left { Leaves (draft_of draft.old) (draft_of draft.new) result (opened section (draft_of draft.old)) }
    ensures no_memory { IfErr result (λ fault. fault ≢ Memory refused) }
{
    if rank(draft.section) >= rank(section) {
        return Err(RowFault::Wrong(0, Reason::OutOfOrder));
    }
    draft.next = first_in(section, draft);
    draft.section = section;
    Ok(())
}

/// Takes the size of bss.
fn take_bss(draft: &mut FileDraft, second: &[u8]) -> Result<(), RowFault>
    ensures left { Leaves (draft_of draft.old) (draft_of draft.new) result
        (named_by Bss (draft_of draft.old) (in_column 1 (number second.now))) }
    ensures no_memory { IfErr result (λ fault. fault ≢ Memory refused) }
{
    let size = number_at(1, second)?;
    if size % 2 != 0 {
        return Err(RowFault::Wrong(1, Reason::OddSize));
    }
    draft.bss = size;
    Ok(())
}

/// Takes the magic number.
fn take_magic(draft: &mut FileDraft, second: &[u8]) -> Result<(), RowFault>
    ensures left { Leaves (draft_of draft.old) (draft_of draft.new) result
        (named_by Magic (draft_of draft.old) (in_column 1 (number second.now))) }
    ensures no_memory { IfErr result (λ fault. fault ≢ Memory refused) }
{
    if draft.section != Section::InHeader {
        return Err(RowFault::Wrong(0, Reason::TooLate));
    }
    let magic = number_at(1, second)?;
    if !is_magic(magic) {
        return Err(RowFault::Wrong(1, Reason::NoMagic));
    }
    draft.magic = magic;
    Ok(())
}

fn take_flag(draft: &mut FileDraft, second: &[u8]) -> Result<(), RowFault>
    ensures left { Leaves (draft_of draft.old) (draft_of draft.new) result
        (named_by Flag (draft_of draft.old) (in_column 1 (number second.now))) }
    ensures no_memory { IfErr result (λ fault. fault ≢ Memory refused) }
{
    if draft.section != Section::InHeader {
        return Err(RowFault::Wrong(0, Reason::TooLate));
    }
    draft.flag = number_at(1, second)?;
    Ok(())
}

fn take_word(draft: &mut FileDraft, word: Word, second: &[u8]) -> Result<(), RowFault>
    ensures left { Leaves (draft_of draft.old) (draft_of draft.new) result
        (named_by word (draft_of draft.old) (in_column 1 (number second.now))) }
    ensures no_memory { IfErr result (λ fault. fault ≢ Memory refused) }
{
    match word {
        Word::Text => open(draft, Section::InText),
        Word::Data => open(draft, Section::InData),
        Word::Symbols => open(draft, Section::InSymbols),
        Word::Bss => take_bss(draft, second),
        Word::Entry => {
            draft.entry = number_at(1, second)?;
            Ok(())
        }
        Word::Unused => {
            draft.unused = number_at(1, second)?;
            Ok(())
        }
        Word::Magic => take_magic(draft, second),
        Word::Flag => take_flag(draft, second),
        Word::End => open(draft, Section::Ended),
        Word::Unknown => Err(RowFault::Wrong(0, Reason::UnknownWord)),
    }
}

/// Reads a row that begins with a word.
fn named(draft: &mut FileDraft, columns: Columns) -> Result<(), RowFault>
    ensures left { Leaves (draft_of draft.old) (draft_of draft.new) result
        (named (draft_of draft.old) (row_in columns.entry)) }
    ensures no_memory { IfErr result (λ fault. fault ≢ Memory refused) }
{
    let word = word_of(columns);
    if draft.section == Section::Ended {
        return Err(RowFault::Wrong(0, Reason::AfterEnd));
    }
    if draft.section == Section::InSymbols && word != Word::End {
        return Err(RowFault::Wrong(0, Reason::AfterTable));
    }
    take_word(draft, word, columns.second)
}

/// Whether a row is a note on the magic number, as the head has it that `v7-explain` writes.
fn is_head(columns: Columns) -> bool
    ensures { result ≡ is_head (row_in columns.entry) }
{
    is_word(columns.first, b"/")
        && is_word(columns.second, b"000")
        && is_word(columns.fourth, b"magic:")
}

/// Whether a listing has such a note.
#[tactic(auto, using(crate::proofs::ReadLemmas::head_here))]
pub(crate) fn has_head(text: &[u8]) -> bool
    ensures { result ≡ has_head (lines_in text.now) }
{
    let mut rest = text;
    while !rest.is_empty() {
        let (line, others) = cut_line(rest);
        if is_head(columns_of(line)) {
            return true;
        }
        rest = others;
    }
    false
}

/// Whether a row is a label: `NAME:` alone, or `NAME = .+K`.
fn is_label(columns: Columns) -> bool
    ensures { result ≡ is_label (row_in columns.entry) }
{
    (is_word(columns.second, b"") && columns.first.ends_with(b":"))
        || (is_word(columns.second, b"=") && columns.third.starts_with(b".+"))
}

/// Whether a row is a label, for a reader that looks at digits first.
pub(crate) fn is_skipped(line: &[u8]) -> bool
    ensures { result ≡ (not (begins_with_digit (row_of line.now).first) && is_label (row_of line.now)) }
{
    let columns = columns_of(line);
    !begins_with_digit(columns.first) && is_label(columns)
}

/// Whether a row is a word, a symbol, or a mistake in its place.
fn begins_with_digit(first: &[u8]) -> bool
    ensures { result ≡ begins_with_digit first.now }
{
    match first.first() {
        Some(byte) => is_decimal(*byte),
        None => false,
    }
}

pub(crate) fn read_row(alloc: Global, draft: &mut FileDraft, line: &[u8]) -> Result<(), RowFault>
    ensures left { Leaves (draft_of draft.old) (draft_of draft.new) result
        (row_read (draft_of draft.old) (row_of line.now)) }
    ensures memory { IfErr result (λ fault.
        fault ≡ Memory refused → IsEntry (draft_of draft.old) (row_of line.now)) }
{
    let columns = columns_of(line);
    let Some(&byte) = columns.first.first() else {
        return Ok(());
    };
    if byte == b'/' {
        return Ok(());
    }
    if is_decimal(byte) {
        return entry_in(alloc, draft, columns);
    }
    if is_label(columns) {
        return Ok(());
    }
    named(draft, columns)
}

/// The address or number that a row has, or the next one.
fn own(next: u16, first: &[u8]) -> u16
    ensures { result ≡ own next (number first.now) }
{
    match number_at(0, first) {
        Ok(number) => number,
        Err(_) => next,
    }
}

/// The address or number after that of a row with a mistake.
fn next_after(section: Section, next: u16, number: u16) -> u16
    ensures { result ≡ next_after section next number }
{
    match section {
        Section::InHeader | Section::Ended => next,
        Section::InText | Section::InData => number.wrapping_add(2),
        Section::InSymbols => number.wrapping_add(1),
    }
}

/// Passes a row with a mistake.
pub(crate) fn pass(draft: &mut FileDraft, line: &[u8])
    ensures { draft_of draft.new ≡ passed (draft_of draft.old) (row_of line.now) }
{
    let columns = columns_of(line);
    if begins_with_digit(columns.first) {
        let number = own(draft.next, columns.first);
        draft.next = next_after(draft.section, draft.next, number);
    }
}
