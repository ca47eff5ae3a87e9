//! The map of a link as lists of records that have no lists of their own: objects, and the uses of names.
ghost use Rattle.std.specs.{Prelude.{◌≡◌, ◌++◌, map, IfOk, OnOk}, List.flat_map};
ghost use Rattle.aout_core.specs.Names.{padded};
ghost use Rattle.link_session.specs.Labelled.{number_or_none};
ghost use Rattle.link_maps.specs.Records.{object_record, object_records, places_in, records_from, use_kind, use_record, use_records, word_kind, word_record};
ghost use Rattle.link_maps.specs.{Groups.groups_of, Members.member_of};

use crate::members::Listed;
use crate::places::Places;
use crate::references::ReferringWord;
use crate::uses::Use;
use aout_core::{Name, Part};
use std::alloc::{AllocError, Global};

/// An object: where its segments begin, and their sizes in bytes; and how many symbols it has.
#[repr(C)]
#[derive(Clone, Copy, Debug, PartialEq, Eq)]
pub struct ObjectRecord {
    pub text: u64,
    pub data: u64,
    pub bss: u64,
    pub symbols: usize,
    pub text_size: u16,
    pub data_size: u16,
    pub bss_size: u16,
}

/// A use of a name, or a word that refers to it.
#[repr(C)]
#[derive(Clone, Copy, Debug, PartialEq, Eq)]
pub struct UseRecord {
    /// The address of a word, in the program.
    pub address: u64,
    /// The number of the object; the largest number for a forced name.
    pub object: usize,
    /// The number of the name.
    pub name: usize,
    /// The label before the line of a word, filled up with NULs.
    pub label: [u8; 8],
    /// 1 for a definition, 2 for a common, 3 for another symbol, 4 for a forced name, 5 for a word of text, and 6 for a word of data; 7
    /// and 8 for those that may reach what the symbol names.
    pub kind: u32,
    /// The place of a word in its part, in bytes; else the value of the symbol.
    pub offset: u16,
    /// The place at which the line of a word begins.
    pub line: u16,
    /// How many bytes after its label a line begins.
    pub beyond: u16,
    /// 1 if there is a label before the line of a word.
    pub is_labelled: u16,
    /// How many bytes beyond the symbol a word leads.
    pub inside: u16,
}

/// A name in eight bytes, filled up with NULs.
pub fn padded(name: &Name) -> [u8; 8]
    ensures { result ≡ padded name.now }
{
    let text = name.as_bytes();
    let mut bytes = [0; 8];
    bytes[..text.len()].copy_from_slice(text);
    bytes
}

/// The number of an object, or the largest number.
pub(crate) fn number_or_none(object: Option<usize>) -> usize
    ensures { result ≡ number_or_none object }
{
    match object {
        Some(number) => number,
        None => usize::MAX,
    }
}

fn object_record(object: &Listed<'_>, at: &Places) -> ObjectRecord
    ensures { result ≡ object_record (member_of object.now) at.now }
{
    let header = object.file.header();
    ObjectRecord {
        text: at.text,
        data: at.data,
        bss: at.bss,
        symbols: object.file.symbols().len(),
        text_size: header.text_size,
        data_size: header.data_size,
        bss_size: header.bss_size,
    }
}

/// The objects. An error: out of memory.
pub(crate) fn object_records(
    alloc: Global,
    all: &[Listed<'_>],
    places: &[Places],
) -> Result<Vec<ObjectRecord>, AllocError>
    ensures { IfOk result (λ records. records.items ≡ object_records all.now places.now) }
{
    all.iter()
        .zip(places)
        .map(|(object, at)| object_record(object, at))
        .collect(alloc)
}

fn use_kind(used: &Use) -> u32
    ensures { result ≡ use_kind used.now }
{
    if used.object.is_none() {
        4
    } else if used.is_definition() {
        1
    } else if used.is_common() {
        2
    } else {
        3
    }
}

fn use_record(number: usize, used: &Use) -> UseRecord
    ensures { result ≡ use_record number used.now }
{
    UseRecord {
        address: 0,
        object: number_or_none(used.object),
        name: number,
        label: [0; 8],
        kind: use_kind(used),
        offset: used.symbol.value,
        line: 0,
        beyond: 0,
        is_labelled: 0,
        inside: 0,
    }
}

fn word_kind(part: Part, inside: u16) -> u32
    ensures { result ≡ word_kind part inside }
{
    match (part, inside) {
        (Part::Text, 0) => 5,
        (Part::Data, 0) => 6,
        (Part::Text, _) => 7,
        (Part::Data, _) => 8,
    }
}

/// A word that refers to a name, in an object whose segments begin there.
fn word_record(at: &Places, object: usize, number: usize, word: &ReferringWord) -> UseRecord
    ensures { result ≡ word_record at.now object number word.now }
{
    let (label, beyond) = match &word.before {
        Some(before) => (padded(&before.name), before.offset),
        None => ([0; 8], 0),
    };
    UseRecord {
        address: at.address(word.part, word.offset),
        object,
        name: number,
        label,
        kind: word_kind(word.part, word.inside),
        offset: word.offset,
        line: word.line,
        beyond,
        is_labelled: u16::from(word.before.is_some()),
        inside: word.inside,
    }
}

/// Where the segments of an object begin.
fn places_in(places: &[Places], object: Option<usize>) -> Places
    ensures { result ≡ places_in places.now object }
{
    match object {
        Some(number) => *places.get(number).unwrap_or(&Places::NONE),
        None => Places::NONE,
    }
}

/// Appends words of an object that refer to the name with a number.
fn put_words(
    records: &mut Vec<UseRecord>,
    at: &Places,
    object: usize,
    number: usize,
    words: &[ReferringWord],
) -> Result<(), AllocError>
    ensures { OnOk result (records.new.items ≡ records.old.items
        ++ map (word_record at.now object number) words.now) }
{
    for word in words {
        records.push(word_record(at, object, number, word))?;
    }
    Ok(())
}

/// Appends a use, the words that refer to its symbol, and those that may reach what that names.
fn put_use(
    records: &mut Vec<UseRecord>,
    places: &[Places],
    number: usize,
    used: &Use,
) -> Result<(), AllocError>
    ensures { OnOk result
        (records.new.items ≡ records.old.items ++ use_records places.now number used.now) }
{
    records.push(use_record(number, used))?;
    let (at, object) = (&places_in(places, used.object), number_or_none(used.object));
    put_words(records, at, object, number, &used.references)?;
    put_words(records, at, object, number, &used.near)
}

/// Appends the uses of a name.
fn put_uses(
    records: &mut Vec<UseRecord>,
    places: &[Places],
    number: usize,
    uses: &[Use],
) -> Result<(), AllocError>
    ensures { OnOk result (records.new.items
        ≡ records.old.items ++ flat_map (use_records places.now number) uses.now) }
{
    for used in uses {
        put_use(records, places, number, used)?;
    }
    Ok(())
}

/// The uses of all names. An error: out of memory.
pub(crate) fn use_records(
    alloc: Global,
    places: &[Places],
    groups: &[&[Use]],
) -> Result<Vec<UseRecord>, AllocError>
    ensures { IfOk result (λ records.
        records.items ≡ records_from places.now 0 (groups_of groups.now)) }
{
    let mut records = Vec::new(alloc);
    for (number, uses) in groups.iter().enumerate() {
        put_uses(&mut records, places, number, uses)?;
    }
    Ok(records)
}
