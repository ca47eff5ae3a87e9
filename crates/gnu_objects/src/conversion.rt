//! The object of the Seventh Edition that an object in GNU's form is.
ghost use Rattle.std.specs.Prelude.{◌≡◌, ◌≢◌, ◌≤◌, IfOk, IfSome, Err};
ghost use Rattle.aout_core.specs.{Parts.contents_of, Refusals.refused};
ghost use Rattle.gnu_objects.specs.{GnuRefusals.{sizes_refusal, table_refusal}, Staying.count};
ghost use Rattle.gnu_objects.specs.Converted.{converted, converted_symbol, converted_symbols, converted_by, contents_with};

use crate::checks::{first_alike, table_refusal};
use crate::names::name_at;
use crate::options::Options;
use crate::refusal::Refusal;
use crate::staying::{count, staying};
use crate::symbols::GnuSymbol;
use crate::tables::Tables;
use crate::whole::{relocation_of, strings_of, symbols_of, whole_header};
use crate::words::{all_renumbered, words_from};
use aout_core::{File, Header, Name, Object, Parts, Symbol};
use std::alloc::{AllocError, Global};

fn converted_symbol(strings: &[u8], symbol: &GnuSymbol) -> Symbol
    ensures { result ≡ converted_symbol strings.now symbol.now }
{
    Symbol {
        name: Name::from_bytes(name_at(strings, symbol.place)),
        type_bits: u16::from(symbol.type_bits),
        value: symbol.value,
    }
}

fn converted_symbols(
    alloc: Global,
    strings: &[u8],
    symbols: &[GnuSymbol],
    flags: &[bool],
) -> Result<Vec<Symbol>, AllocError>
    ensures { IfOk result (λ v. v.items ≡ converted_symbols strings.now flags.now symbols.now) }
{
    symbols
        .iter()
        .zip(flags)
        .filter(|(_, stays)| **stays)
        .map(|(symbol, _)| converted_symbol(strings, symbol))
        .collect(alloc)
}

/// The parts of the converted object.
fn parts_with(alloc: Global, tables: &Tables<'_>) -> Result<Parts, AllocError>
    requires { count tables.now.flags.now ≤ 5461 }
    ensures { IfOk result (λ parts. contents_of parts ≡ contents_with tables.now.bytes.now tables.now.header.now
        tables.now.strings.now tables.now.symbols.now tables.now.words.now tables.now.flags.now) }
{
    let Tables {
        bytes,
        header,
        strings,
        symbols,
        words,
        flags,
        ..
    } = *tables;
    let text = usize::from(header.text_size / 2);
    let data = usize::from(header.data_size / 2);
    let data_start = 16 + usize::from(header.text_size);
    Ok(Parts {
        header: Header {
            symbol_size: 12 * count(flags) as u16,
            flag: 0,
            ..*header
        },
        text_words: words_from(alloc, bytes, 16, text)?,
        data_words: words_from(alloc, bytes, data_start, data)?,
        text_reloc: all_renumbered(alloc, flags, &words[..text])?,
        data_reloc: all_renumbered(alloc, flags, &words[text..])?,
        symbols: converted_symbols(alloc, strings, symbols, flags)?,
    })
}

/// The object of these tables. A refusal comes before any request for memory.
fn object_with(alloc: Global, drops: bool, tables: &Tables<'_>) -> Result<Object, Refusal>
    ensures value { result ≢ Err (Refusal.Memory refused) → result ≡ converted_by drops tables.now.bytes.now tables.now.header.now
        tables.now.strings.now tables.now.symbols.now tables.now.words.now tables.now.flags.now }
    ensures refused { IfSome (table_refusal drops tables.now.header.now tables.now.strings.now
        tables.now.symbols.now tables.now.words.now tables.now.flags.now) (λ refusal.
        result ≡ Err refusal) }
{
    if let Some(refusal) = table_refusal(drops, tables) {
        return Err(refusal);
    }
    match Object::from_file(File::from_parts(parts_with(alloc, tables)?)) {
        Ok(object) => Ok(object),
        Err((_, fault)) => Err(Refusal::BadWord(fault)),
    }
}

/// Converts the object in GNU's form with which the bytes begin to one of the Seventh Edition. Symbols for a debugger are
/// dropped or refused, as the options say. Locals are dropped as the options say, or because their names are equal in
/// eight bytes to another's. (a.out(5); binutils, pdp11-aout)
///
/// Errors, the first that applies. For the header and the sizes: `ShortHeader`, 1, `BadMagic`, 2, `OddSize`, 3, `Truncated`,
/// 4, and `BadStrings`, 5. For the first bad symbol: `Overlay`, 6, `BadPlace`, 7, `Stab`, 8, or `Description`, 9. Then
/// `Linked`, 10, if there is an entry point and no relocation; `TooManySymbols`, 11, if over 5,461 stay; and `AlikeNames`,
/// 12, for the first two externals. For the first bad word: `StabWord`, 13, or `LocalWord`, 14, and then `BadWord`, 15, as
/// `Object::from_file` says. `Memory`, 16, comes if memory runs out, but never in place of the first five.
pub fn convert(alloc: Global, bytes: &[u8], options: Options) -> Result<Object, Refusal>
    ensures value { result ≢ Err (Refusal.Memory refused) → result ≡ converted options bytes.now }
    ensures refused { IfSome (sizes_refusal bytes.now) (λ refusal. result ≡ Err refusal) }
{
    let header = whole_header(bytes)?;
    let strings = strings_of(bytes, &header);
    let symbols = symbols_of(alloc, bytes, &header)?;
    let words = relocation_of(alloc, bytes, &header)?;
    let flags = staying(alloc, options.locals, strings, &symbols, &words)?;
    let tables = Tables {
        bytes,
        header: &header,
        strings,
        symbols: &symbols,
        words: &words,
        flags: &flags,
        alike: first_alike(alloc, strings, &symbols)?,
    };
    object_with(alloc, options.drops_debugger, &tables)
}
