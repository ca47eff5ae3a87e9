//! What is wrong with an object in GNU's form.
ghost use Rattle.std.specs.Prelude.{◌≡◌, ◌+◌, ◌≤◌, ◌<◌, ◌^◌, true, IfOk, length};
ghost use Rattle.aout_core.specs.Encoding.{symbols_at, file_length};
ghost use Rattle.gnu_objects.specs.GnuRefusals.{header_refusal, strings_refusal, first_refusal, symbol_refusal, alike_refusal};
ghost use Rattle.gnu_objects.specs.{GnuRefusals.{first_alike, word_refusal, table_refusal}, internal.Sizes.IsObjectHeader};

use crate::alike::NamedSymbols;
use crate::bytes::long_at;
use crate::names::{is_stab, name_at};
use crate::refusal::{Refusal, Size};
use crate::staying::{count, counts, refers};
use crate::symbols::GnuSymbol;
use crate::tables::Tables;
use aout_core::Header;
use std::alloc::{AllocError, Global};

/// Where the symbols begin.
pub(crate) fn symbols_at(header: &Header) -> usize
    ensures value { result ≡ symbols_at header.now }
    ensures bound { result < 2 ^ 19 }
{
    let segments = usize::from(header.text_size) + usize::from(header.data_size);
    let relocation = if header.flag == 0 { segments } else { 0 };
    16 + segments + relocation
}

/// Where the strings begin.
pub(crate) fn strings_at(header: &Header) -> usize
    ensures value { result ≡ file_length header.now }
    ensures bound { result < 2 ^ 20 }
{
    symbols_at(header) + usize::from(header.symbol_size)
}

/// What is wrong with the header of a file of so many bytes, if anything is.
pub(crate) fn header_refusal(size: usize, header: &Header) -> Option<Refusal>
    requires { 16 ≤ size }
    ensures value { result ≡ header_refusal size header.now }
    ensures whole { result ≡ None → IsObjectHeader size header.now }
{
    if header.magic != 0o407 {
        Some(Refusal::BadMagic(header.magic))
    } else if header.text_size % 2 != 0 {
        Some(Refusal::OddSize(Size::TextSize))
    } else if header.data_size % 2 != 0 {
        Some(Refusal::OddSize(Size::DataSize))
    } else if header.bss_size % 2 != 0 {
        Some(Refusal::OddSize(Size::BssSize))
    } else if header.symbol_size % 8 != 0 {
        Some(Refusal::OddSize(Size::SymbolSize))
    } else if size < strings_at(header) {
        Some(Refusal::Truncated)
    } else {
        None
    }
}

/// What is wrong with the strings, if anything is.
pub(crate) fn strings_refusal(bytes: &[u8], header: &Header) -> Option<Refusal>
    ensures { result ≡ strings_refusal bytes.now header.now }
{
    let start = strings_at(header);
    if header.symbol_size == 0 {
        None
    } else if bytes.len() < start + 4 {
        Some(Refusal::Truncated)
    } else if long_at(bytes, start) < 4 {
        Some(Refusal::BadStrings)
    } else if bytes.len() < start + long_at(bytes, start) as usize {
        Some(Refusal::Truncated)
    } else {
        None
    }
}

fn symbol_refusal(strings: &[u8], drops: bool, n: u16, symbol: &GnuSymbol) -> Option<Refusal>
    ensures { result ≡ symbol_refusal strings.now drops n symbol.now }
{
    let place = usize::from(symbol.place);
    if symbol.overlay != 0 {
        Some(Refusal::Overlay(n))
    } else if strings.len() <= place || (0 < place && place < 4) {
        Some(Refusal::BadPlace(n))
    } else if is_stab(strings, symbol) {
        if drops { None } else { Some(Refusal::Stab(n)) }
    } else if symbol.description != 0 {
        Some(Refusal::Description(n))
    } else {
        None
    }
}

/// What is wrong with the first bad symbol.
fn first_bad_symbol(strings: &[u8], drops: bool, symbols: &[GnuSymbol]) -> Option<Refusal>
    requires { length symbols.now < 2 ^ 16 }
    ensures { result ≡ first_refusal (symbol_refusal strings.now drops) 0 symbols.now }
{
    for (n, symbol) in symbols.iter().enumerate() {
        let refusal = symbol_refusal(strings, drops, n as u16, symbol);
        if refusal.is_some() {
            return refusal;
        }
    }
    None
}

/// What is wrong with an external, if its name is alike with that of another one.
fn alike_refusal(externals: &NamedSymbols<'_>, n: u16, symbol: &GnuSymbol) -> Option<Refusal>
    requires { externals.now.externals ≡ true }
    ensures { result ≡ alike_refusal externals.now.strings.now externals.now.symbols.now n symbol.now }
{
    if !counts(externals.strings, true, symbol) {
        return None;
    }
    let other = externals.alike_with(name_at(externals.strings, symbol.place))?;
    Some(Refusal::AlikeNames(n, other))
}

/// The first two externals whose names are alike.
pub(crate) fn first_alike(
    alloc: Global,
    strings: &[u8],
    symbols: &[GnuSymbol],
) -> Result<Option<Refusal>, AllocError>
    requires { length symbols.now < 2 ^ 16 }
    ensures { IfOk result (λ refusal. refusal ≡ first_alike strings.now symbols.now) }
{
    let externals = NamedSymbols::new(alloc, strings, true, symbols)?;
    for (n, symbol) in symbols.iter().enumerate() {
        let refusal = alike_refusal(&externals, n as u16, symbol);
        if refusal.is_some() {
            return Ok(refusal);
        }
    }
    Ok(None)
}

/// What is wrong with a relocation word, if it refers to a symbol that does not stay.
fn word_refusal(
    strings: &[u8],
    symbols: &[GnuSymbol],
    flags: &[bool],
    n: u16,
    word: u16,
) -> Option<Refusal>
    ensures { result ≡ word_refusal strings.now symbols.now flags.now n word }
{
    if !refers(word) {
        return None;
    }
    let m = word / 16;
    let symbol = symbols.get(usize::from(m))?;
    if *flags.get(usize::from(m))? {
        return None;
    }
    Some(if is_stab(strings, symbol) {
        Refusal::StabWord(n)
    } else {
        Refusal::LocalWord(n, m)
    })
}

/// The first relocation word that refers to a symbol that does not stay.
fn first_dropped_word(
    strings: &[u8],
    symbols: &[GnuSymbol],
    flags: &[bool],
    words: &[u16],
) -> Option<Refusal>
    requires { length words.now ≤ 2 ^ 16 }
    ensures { result ≡ first_refusal (word_refusal strings.now symbols.now flags.now) 0 words.now }
{
    for (n, word) in words.iter().enumerate() {
        let refusal = word_refusal(strings, symbols, flags, n as u16, *word);
        if refusal.is_some() {
            return refusal;
        }
    }
    None
}

/// What is wrong with the symbols, and with the words that refer to them, if anything is.
pub(crate) fn table_refusal(drops: bool, tables: &Tables<'_>) -> Option<Refusal>
    ensures { result ≡ table_refusal drops tables.now.header.now tables.now.strings.now
        tables.now.symbols.now tables.now.words.now tables.now.flags.now }
{
    let Tables {
        header,
        strings,
        symbols,
        words,
        flags,
        ..
    } = *tables;
    if let Some(refusal) = first_bad_symbol(strings, drops, symbols) {
        return Some(refusal);
    }
    if header.flag != 0 && header.entry_point != 0 {
        return Some(Refusal::Linked(header.entry_point));
    }
    let count = count(flags) as u16;
    if count > 5461 {
        return Some(Refusal::TooManySymbols(count));
    }
    tables
        .alike
        .or(first_dropped_word(strings, symbols, flags, words))
}
