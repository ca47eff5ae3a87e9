//! Objects and other files taken apart.
ghost use Rattle.std.specs.Prelude.{◌≡◌, ◌≢◌, ◌⊎◌, map, Ok, Err, IsOk, IfOk, IfErr};
ghost use Rattle.aout_core.specs.Refusals.{refused};
ghost use Rattle.libv7.specs.MemoryWanted.{HasBody};
ghost use Rattle.libv7.specs.ObjectParts.{object_word, object_words, parts_in, pieces_in, pieces_of, row_of, whole_in, whole_of};
ghost use Rattle.libv7.specs.declared.cause.Cause.TheVariants.{Memory};

use crate::cause::Cause;
use crate::decoding::{first_file, first_object};
use crate::parts::{FileLists, ObjectWord, PartLists, SymbolRow};
use aout_core::{File, Part, PlacedWord, Symbol};
use link_maps::padded;
use std::alloc::{AllocError, Global};

/// A word with its relocation word, or with 0 if that was stripped.
fn object_word(placed: PlacedWord) -> ObjectWord
    ensures { result ≡ object_word placed }
{
    ObjectWord {
        value: placed.word,
        reloc: match placed.reloc {
            Some(reloc) => reloc.0,
            None => 0,
        },
    }
}

fn object_words(alloc: Global, file: &File, part: Part) -> Result<Vec<ObjectWord>, AllocError>
    ensures { IfOk result (λ words. words.items ≡ object_words file.now part) }
{
    let count = file.words_of(part).len();
    let mut words = Vec::with_capacity(alloc, count)?;
    for number in 0..count {
        words.push(object_word(file.placed_word(part, number)))?;
    }
    Ok(words)
}

fn row_of(symbol: &Symbol) -> SymbolRow
    ensures { result ≡ row_of symbol.now }
{
    SymbolRow {
        name: padded(&symbol.name),
        type_bits: symbol.type_bits,
        value: symbol.value,
    }
}

fn rows_of(alloc: Global, symbols: &[Symbol]) -> Result<Vec<SymbolRow>, AllocError>
    ensures { IfOk result (λ rows. rows.items ≡ map row_of symbols.now) }
{
    symbols.iter().map(|symbol| row_of(symbol)).collect(alloc)
}

fn parts_of(alloc: Global, file: &File) -> Result<PartLists, AllocError>
    ensures { IfOk result (λ parts. pieces_in parts ≡ pieces_of file.now) }
{
    Ok(PartLists {
        text: object_words(alloc, file, Part::Text)?,
        data: object_words(alloc, file, Part::Data)?,
        bss: file.header().bss_size,
        symbols: rows_of(alloc, file.symbols())?,
    })
}

/// The parts of the object that the bytes begin with; its entry point and the word without a meaning are left out. What
/// is after it is not looked at. (a.out(5))
///
/// Errors: `BadFile`, 11 to 14, if the bytes do not begin with a file; `BadObject`, 21 to 24, if it is not an object;
/// `Memory`, 50, if memory runs out for a whole file that has more than its header, or for the parts of an object.
pub fn take_apart(alloc: Global, bytes: &[u8]) -> Result<PartLists, Cause>
    ensures ok { IfOk result (λ parts. parts_in bytes.now ≡ Ok (pieces_in parts)) }
    ensures err { IfErr result (λ cause. cause ≢ Memory refused → parts_in bytes.now ≡ Err cause) }
    ensures memory { IfErr result (λ cause.
        cause ≡ Memory refused → HasBody bytes.now ⊎ IsOk (parts_in bytes.now)) }
{
    let object = first_object(alloc, bytes)?;
    Ok(parts_of(alloc, object.file())?)
}

/// The header and the parts of the file that the bytes begin with, an object or another. If its relocation was stripped, each
/// relocation word is 0. What is after it is not looked at. (a.out(5))
///
/// Errors: `BadFile`, 11 to 14, if the bytes do not begin with a file; else `Memory`, 50, if memory runs out.
pub fn read_apart(alloc: Global, bytes: &[u8]) -> Result<FileLists, Cause>
    ensures ok { IfOk result (λ file. whole_in bytes.now ≡ Ok (whole_of file)) }
    ensures err { IfErr result (λ cause. cause ≢ Memory refused → whole_in bytes.now ≡ Err cause) }
    ensures memory { IfErr result (λ cause. cause ≡ Memory refused → IsOk (whole_in bytes.now)) }
{
    let file = first_file(alloc, bytes)?;
    Ok(FileLists {
        header: *file.header(),
        parts: parts_of(alloc, &file)?,
    })
}
