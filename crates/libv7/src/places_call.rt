//! Where an object is in a program, as records.
ghost use Rattle.std.specs.Prelude.{◌≡◌, ◌≢◌, ◌+◌, ◌*◌, ◌≤◌, ◌<◌, ◌^◌, IfOk, IfErr, Err, None, length, map, replicate};
ghost use Rattle.aout_core.specs.Refusals.{refused};
ghost use Rattle.origins.specs.{Fits.FitsSomewhere, Telling.{HasSlots, IsDataAt, Tells}};
ghost use Rattle.libv7.specs.PlaceAnswers.{AreFound, AreRecords, AreTexts, FitsWith, IsOnly, IsWordOf, PlacesMayRunOut, files_in, place_record};
ghost use Rattle.libv7.specs.internal.Shown.{HasText, first_number, names_in};
ghost use Rattle.libv7.specs.declared.cause.Cause.TheVariants.{Memory};

use crate::cause::{Cause, Refusal};
use crate::decoding::{first_file, first_object};
use aout_core::{File, Name, Object, Symbol};
use origins::{places, tell_data, tell_text};
use std::alloc::{AllocError, Global};

/// A place at which an object fits a program.
#[repr(C)]
#[derive(Clone, Copy, Debug, PartialEq, Eq)]
pub struct PlaceRecord {
    /// The address of its text.
    pub text: u16,
    /// The address of its data, if there is one alone; else 0.
    pub data: u16,
    /// 1 if there is; 0 if the object has no data, or its data may be at several addresses.
    pub has_data: u16,
}

/// The number of the first symbol of a name; how many symbols there are if none has it.
fn first_number(symbols: &[Symbol], name: &Name) -> usize
    ensures value { result ≡ first_number symbols.now name.now }
    ensures inside { result ≤ length symbols.now }
{
    for (i, symbol) in symbols.iter().enumerate() {
        if symbol.name == *name {
            return i;
        }
    }
    symbols.len()
}

/// For each symbol, the number of the first symbol of its name.
fn first_numbers(alloc: Global, symbols: &[Symbol]) -> Result<Vec<u16>, AllocError>
    requires { length symbols.now < 2 ^ 16 }
    ensures { IfOk result (λ v. v.items ≡ map (λ s. first_number symbols.now s.name) symbols.now) }
{
    let mut firsts = Vec::new(alloc);
    for symbol in symbols {
        firsts.push(first_number(symbols, &symbol.name) as u16)?;
    }
    Ok(firsts)
}

/// The addresses of text at which an object fits; if it has no text, the first alone.
fn texts_of(alloc: Global, program: &File, object: &Object) -> Result<Vec<u16>, AllocError>
    ensures { IfOk result (λ v. AreTexts program.now object.now v.items) }
{
    let mut texts = places(alloc, program, object)?;
    if object.file().text_words().is_empty() {
        texts.truncate(1);
    }
    Ok(texts)
}

/// So many empty slots.
fn empty_table(alloc: Global, slots: usize) -> Result<Vec<Option<u16>>, AllocError>
    ensures { IfOk result (λ v. v.items ≡ replicate slots None) }
{
    let mut table = Vec::new(alloc);
    for _ in 0..slots {
        table.push(None)?;
    }
    Ok(table)
}

/// Whether the object's data may be at this word of the program's, by the table; `copy` has what its words show.
fn may_be_at(
    table: &[Option<u16>],
    copy: &mut [Option<u16>],
    names: &[u16],
    program: &File,
    object: &Object,
    word: usize,
) -> bool
    requires same { length copy.old ≡ length table.now }
    requires slots { HasSlots names.now table.now }
    requires short { 2 * word < 2 ^ 16 }
    ensures { Tells table.now (IsDataAt program.now object.now names.now (2 * word)) result copy.new }
{
    copy.copy_from_slice(table);
    tell_data(copy, names, program, object, (2 * word) as u16)
}

/// The word of the program's data at which the object's begins, by a table that has what its text shows; `None` if there are several.
fn only_word(
    table: &[Option<u16>],
    copy: &mut [Option<u16>],
    names: &[u16],
    program: &File,
    object: &Object,
    text: u16,
) -> Option<u16>
    requires same { length copy.old ≡ length table.now }
    requires slots { HasSlots names.now table.now }
    requires names { names.now ≡ names_in object.now }
    requires told { HasText program.now object.now text table.now }
    requires place { FitsSomewhere program.now object.now text }
    ensures { IsOnly (FitsWith program.now object.now text) result }
{
    let mut found = None;
    for word in 0..program.data_words().len() + 1 {
        if !may_be_at(table, copy, names, program, object, word) {
            continue;
        }
        match found {
            None => found = Some(word as u16),
            Some(_) => return None,
        }
    }
    found
}

/// The same, by a table that is empty, and has what the object's text shows then.
fn word_by(
    table: &mut [Option<u16>],
    copy: &mut [Option<u16>],
    names: &[u16],
    program: &File,
    object: &Object,
    text: u16,
) -> Option<u16>
    requires same { length copy.old ≡ length table.old }
    requires slots { HasSlots names.now table.old }
    requires empty { table.old ≡ replicate (3 + length names.now) None }
    requires names { names.now ≡ names_in object.now }
    requires place { FitsSomewhere program.now object.now text }
    ensures { IsOnly (FitsWith program.now object.now text) result }
{
    tell_text(table, names, program, object, text);
    only_word(table, copy, names, program, object, text)
}

/// The word of the program's data at which the object's begins, if its text is at this place; `None` if it has no data, or it may begin
/// at several.
fn word_of(
    alloc: Global,
    names: &[u16],
    program: &File,
    object: &Object,
    text: u16,
) -> Result<Option<u16>, AllocError>
    requires names { names.now ≡ names_in object.now }
    requires place { FitsSomewhere program.now object.now text }
    ensures { IfOk result (λ word. IsWordOf program.now object.now text word) }
{
    if object.file().data_words().is_empty() {
        return Ok(None);
    }
    let mut table = empty_table(alloc, 3 + names.len())?;
    let mut copy = empty_table(alloc, 3 + names.len())?;
    Ok(word_by(&mut table, &mut copy, names, program, object, text))
}

/// The record of a place of text, and of a word of the program's data.
fn place_record(program: &File, text: u16, word: Option<u16>) -> PlaceRecord
    ensures { result ≡ place_record program.now text word }
{
    match word {
        None => PlaceRecord {
            text,
            data: 0,
            has_data: 0,
        },
        Some(word) => PlaceRecord {
            text,
            data: ((program.header().data_start() + 2 * usize::from(word)) % 65536) as u16,
            has_data: 1,
        },
    }
}

/// The records of the addresses of text at which an object fits.
fn records_for(
    alloc: Global,
    names: &[u16],
    program: &File,
    object: &Object,
    texts: &[u16],
) -> Result<Vec<PlaceRecord>, AllocError>
    requires names { names.now ≡ names_in object.now }
    requires texts { AreTexts program.now object.now texts.now }
    ensures { IfOk result (λ v. AreRecords program.now object.now v.items) }
{
    let mut records = Vec::new(alloc);
    for text in texts {
        let word = word_of(alloc, names, program, object, *text)?;
        records.push(place_record(program, *text, word))?;
    }
    Ok(records)
}

fn records_of(
    alloc: Global,
    program: &File,
    object: &Object,
) -> Result<Vec<PlaceRecord>, AllocError>
    ensures { IfOk result (λ v. AreRecords program.now object.now v.items) }
{
    let names = first_numbers(alloc, object.file().symbols())?;
    let texts = texts_of(alloc, program, object)?;
    records_for(alloc, &names, program, object, &texts)
}

/// The places at which the object that the second bytes begin with fits the file that the first begin with, in the order of their
/// addresses. What follows them is not looked at. (a.out(5), own choice)
///
/// Errors, the first that applies: `BadFile`, 11 to 14, of the program, at place 0; `BadFile` or `BadObject`, 11 to 14 and 21 to 24, of
/// the object, at place 1; `Memory`, 50, if memory runs out.
pub fn places_of(alloc: Global, program: &[u8], object: &[u8]) -> Result<Vec<PlaceRecord>, Refusal>
    ensures ok { IfOk result (λ v. AreFound program.now object.now v.items) }
    ensures err { IfErr result (λ e. e.cause ≢ Memory refused → files_in program.now object.now ≡ Err e) }
    ensures memory { IfErr result (λ e. e.cause ≡ Memory refused → PlacesMayRunOut program.now object.now e.place) }
{
    let file = first_file(alloc, program)?;
    match first_object(alloc, object) {
        Ok(object) => Ok(records_of(alloc, &file, &object)?),
        Err(cause) => Err(Refusal { cause, place: 1 }),
    }
}
