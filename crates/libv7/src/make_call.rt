//! Objects made of their parts.
ghost use Rattle.std.specs.Prelude.{◌≡◌, ◌≢◌, ◌%◌, map, Ok, Err, IsOk, IfOk, IfErr};
ghost use Rattle.aout_core.specs.{Refusals.refused, Parts.contents_of};
ghost use Rattle.libv7.specs.ObjectParts.{contents_for, file_for, header_for, header_of, made_of, pieces_for, reloc_of, symbol_of};
ghost use Rattle.libv7.specs.declared.cause.Cause.TheVariants.{Memory};

use crate::cause::{Cause, LongPart};
use crate::decoding::object_of;
use crate::encoding::bytes_of;
use crate::parts::{ObjectParts, ObjectWord, SymbolRow};
use aout_core::{File, Header, Name, Parts, ReadFault, Reloc, Symbol};
use std::alloc::{AllocError, Global};

fn header_for(parts: &ObjectParts<'_>) -> Result<Header, Cause>
    ensures value { result ≡ header_for (pieces_for parts.now) }
    ensures header { IfOk result (λ header. header ≡ header_of (pieces_for parts.now)) }
    ensures even { IfOk result (λ _. parts.now.bss % 2 ≡ 0) }
{
    if parts.text.len() > 32_767 {
        return Err(Cause::TooLong(LongPart::Text));
    }
    if parts.data.len() > 32_767 {
        return Err(Cause::TooLong(LongPart::Data));
    }
    if parts.bss > 65_535 {
        return Err(Cause::TooLong(LongPart::Bss));
    }
    if parts.symbols.len() > 5_461 {
        return Err(Cause::TooLong(LongPart::Symbols));
    }
    if parts.bss % 2 != 0 {
        return Err(Cause::BadFile(ReadFault::OddSize));
    }
    Ok(Header {
        magic: 0o407,
        text_size: 2 * parts.text.len() as u16,
        data_size: 2 * parts.data.len() as u16,
        bss_size: parts.bss as u16,
        symbol_size: 12 * parts.symbols.len() as u16,
        entry_point: 0,
        unused: 0,
        flag: 0,
    })
}

fn values_of(alloc: Global, words: &[ObjectWord]) -> Result<Vec<u16>, AllocError>
    ensures { IfOk result (λ values. values.items ≡ map (λ w. w.value) words.now) }
{
    words.iter().map(|word| word.value).collect(alloc)
}

fn relocs_of(alloc: Global, words: &[ObjectWord]) -> Result<Vec<Reloc>, AllocError>
    ensures { IfOk result (λ relocs. relocs.items ≡ map reloc_of words.now) }
{
    words.iter().map(|word| Reloc(word.reloc)).collect(alloc)
}

fn symbol_of(row: &SymbolRow) -> Symbol
    ensures { result ≡ symbol_of row.now }
{
    Symbol {
        name: Name::from_bytes(&row.name),
        type_bits: row.type_bits,
        value: row.value,
    }
}

fn symbols_of(alloc: Global, rows: &[SymbolRow]) -> Result<Vec<Symbol>, AllocError>
    ensures { IfOk result (λ symbols. symbols.items ≡ map symbol_of rows.now) }
{
    rows.iter().map(|row| symbol_of(row)).collect(alloc)
}

fn parts_with(alloc: Global, header: Header, parts: &ObjectParts<'_>) -> Result<Parts, AllocError>
    ensures { IfOk result (λ lists. contents_of lists ≡ contents_for (pieces_for parts.now) header) }
{
    let text_words = values_of(alloc, parts.text)?;
    let data_words = values_of(alloc, parts.data)?;
    let text_reloc = relocs_of(alloc, parts.text)?;
    let data_reloc = relocs_of(alloc, parts.data)?;
    let symbols = symbols_of(alloc, parts.symbols)?;
    Ok(Parts {
        header,
        text_words,
        data_words,
        text_reloc,
        data_reloc,
        symbols,
    })
}

fn file_for(alloc: Global, parts: &ObjectParts<'_>) -> Result<File, Cause>
    ensures ok { IfOk result (λ file. file_for (pieces_for parts.now) ≡ Ok file) }
    ensures err { IfErr result (λ cause.
        cause ≢ Memory refused → file_for (pieces_for parts.now) ≡ Err cause) }
    ensures memory { IfErr result (λ cause. cause ≡ Memory refused → IsOk (file_for (pieces_for parts.now))) }
{
    let header = header_for(parts)?;
    let lists = parts_with(alloc, header, parts)?;
    Ok(File::from_parts(lists))
}

/// The bytes of an object of these parts, with magic 0407 and no entry point. (a.out(5))
///
/// Errors, the first that applies:
///
/// - `TooLong`, 6, for the first of these: text or data have more than 32,767 words, bss more than 65,535 bytes, or there are
///   more than 5,461 symbols;
/// - `BadFile`, 13, if the size of bss is odd;
/// - `BadObject`, 23 and 24, if a relocation word has none of the kinds, or not the number of an undefined external.
///
/// `Memory`, 50, if memory runs out for parts that are not too long and whose bss is not odd.
pub fn make(alloc: Global, parts: &ObjectParts<'_>) -> Result<Vec<u8>, Cause>
    ensures ok { IfOk result (λ written. made_of (pieces_for parts.now) ≡ Ok written.items) }
    ensures err { IfErr result (λ cause.
        cause ≢ Memory refused → made_of (pieces_for parts.now) ≡ Err cause) }
    ensures memory { IfErr result (λ cause. cause ≡ Memory refused → IsOk (file_for (pieces_for parts.now))) }
{
    let file = file_for(alloc, parts)?;
    let object = object_of(file)?;
    Ok(bytes_of(alloc, object.file())?)
}
