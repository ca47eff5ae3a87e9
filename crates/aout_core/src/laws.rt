//! Laws of the format, over its definitions alone: each is the contract of a function with an empty body, but for
//! `sound_law`, whose body looks at each part of a file.
ghost use Rattle.std.specs.{Prelude.◌<◌, List.AllByRecursion};
ghost use Rattle.aout_core.specs.{Words.AreBytes, Contents.{IsWord, AreWords, IsSymbol, IsSound}};
ghost use Rattle.aout_core.specs.Laws.{EncodingLaw, ReadingLaw, OneFile, EncodedIsRead};

use crate::file::File;
use crate::header::Header;
use crate::reloc::Reloc;
use crate::symbol::Symbol;

/// What is written is read: the encoding of a file, whatever follows it, is read as that file. (a.out(5))
pub fn spelling_law()
    ensures { EncodingLaw }
{}

/// What is read is what the bytes encode: if bytes begin with a file, the first of them encode it, as many as its
/// header says; they differ from what is written for it at most after the first NUL of a name. And the same bytes
/// encode one file at most, which is read of them, whatever follows. (a.out(5))
pub fn reading_law()
    ensures encodes { ReadingLaw }
    ensures one { OneFile }
    ensures read { EncodedIsRead }
{}

// The prover knows of a number that is passed by value that it has 16 bits, or 8. The functions below pass each one on,
// and show no more than that.
fn is_word(_word: u16)
    ensures { IsWord _word }
{}

fn is_byte(_byte: u8)
    ensures { _byte < 256 }
{}

fn are_words(words: &[u16])
    ensures { AllByRecursion IsWord words.now }
{
    for word in words {
        is_word(*word);
    }
}

fn are_bytes(bytes: &[u8])
    ensures { AreBytes bytes.now }
{
    for byte in bytes {
        is_byte(*byte);
    }
}

fn is_symbol(symbol: &Symbol)
    ensures { IsSymbol symbol.now }
{
    are_bytes(symbol.name.as_bytes());
    is_word(symbol.type_bits);
    is_word(symbol.value);
}

fn are_reloc_words(relocs: &[Reloc])
    ensures { AllByRecursion (λ (r : Reloc). IsWord r.0) relocs.now }
{
    for reloc in relocs {
        let word = *reloc;
        is_word(word.0);
    }
}

fn are_symbols(symbols: &[Symbol])
    ensures { AllByRecursion IsSymbol symbols.now }
{
    for symbol in symbols {
        is_symbol(symbol);
    }
}

fn is_header(header: &Header)
    ensures { AreWords header.now }
{
    is_word(header.magic);
    is_word(header.text_size);
    is_word(header.data_size);
    is_word(header.bss_size);
    is_word(header.symbol_size);
    is_word(header.entry_point);
    is_word(header.unused);
    is_word(header.flag);
}

/// Each file is one that the laws are about: its words have 16 bits, and its names are at most eight bytes and no NUL.
/// (a.out(5))
pub fn sound_law(file: &File)
    ensures { IsSound file.now }
{
    is_header(file.header());
    are_words(file.text_words());
    are_words(file.data_words());
    are_reloc_words(file.text_reloc());
    are_reloc_words(file.data_reloc());
    are_symbols(file.symbols());
}
