//! Writes the listing of a file.
ghost use Rattle.std.specs.Prelude.{◌≡◌, ◌<◌, ◌+◌, [], ◌∷◌, ◌++◌, codes, length, replicate, slice_get, Ok, IfOk};
ghost use Rattle.aout_core.specs.Addresses.{data_start_in};
ghost use Rattle.texts.specs.{Numbers.{six_digits, octal}, Names.printable_name, Lines.text_of, Texts.Puts};
ghost use Rattle.listings.specs.Listing.{gap, wide, word_columns, symbol_numbers, named_line, unusual, head_lines, bss_lines};
ghost use Rattle.listings.specs.Listing.{IsRemark, IsWord, AreWords, IsSymbolLine, AreSymbols, IsBeforeEnd, IsListed};
ghost use Rattle.listings.specs.{Reading.read, Puts.{PutsSuch, PutsLines}, declared.draft.Addresses.TheVariants.Compared};

use crate::remark::Remark;
use crate::said::{Said, put_notes};
use aout_core::laws::sound_law;
use aout_core::{File, Header, Name, Part, Reloc, Symbol};
use std::alloc::{AllocError, Global};
use texts::{OctalBuffer, Text, six_digits};

/// How many blanks more than one follow a column in this width.
fn wide(width: usize, column: &[u8]) -> usize
    requires { width < 100 }
    ensures value { result ≡ wide width column.now }
    ensures bound { result < 102 }
{
    1 + width.saturating_sub(column.len())
}

/// Appends a blank, and so many more, and a column.
fn put_column(text: &mut Text, blanks: usize, column: &[u8])
    ensures { Puts text.old text.new (32 ∷ (replicate blanks 32 ++ column.now)) }
{
    text.put_byte(b' ');
    text.put_blanks(blanks);
    text.put_bytes(column);
}

/// Appends a blank, and so many more, and a word in six digits.
fn put_word_column(text: &mut Text, blanks: usize, word: u16)
    ensures { Puts text.old text.new (32 ∷ (replicate blanks 32 ++ six_digits word)) }
{
    put_column(text, blanks, &six_digits(u32::from(word)));
}

/// Appends the address of a word, and the word.
fn put_place(text: &mut Text, at: u16, word: u16)
    ensures { Puts text.old text.new (gap 1 (six_digits at) (six_digits word)) }
{
    let (a, w) = (six_digits(u32::from(at)), six_digits(u32::from(word)));
    text.put_bytes(&[
        a[0], a[1], a[2], a[3], a[4], a[5], b' ', b' ', w[0], w[1], w[2], w[3], w[4], w[5],
    ]);
}

/// Appends the address of a word, the word, and its relocation word if it has one.
fn put_columns(text: &mut Text, at: u16, word: u16, reloc: Option<Reloc>)
    ensures { Puts text.old text.new (word_columns at word reloc) }
{
    put_place(text, at, word);
    if let Some(reloc) = reloc {
        let mut buffer = OctalBuffer::new();
        let digits = buffer.format(u64::from(reloc.0));
        put_column(text, wide(4, digits), digits);
    }
}

/// A word of a part, by its place and its address.
#[derive(Clone, Copy)]
struct Place {
    part: Part,
    index: usize,
    at: u16,
}

/// Appends the line of a word, and the labels before it.
fn put_word<R: Remark>(
    said: &mut Said<'_, R>,
    text: &mut Text,
    place: Place,
    word: u16,
    reloc: Option<Reloc>,
)
    ensures { PutsLines (IsWord place.at word reloc) text.old text.new }
{
    said.put_labels(text, place.part, place.index);
    put_columns(text, place.at, word, reloc);
    said.put_word(text, place.part, place.index);
    text.put_byte(b'\n');
}

fn reloc_at(relocs: &[Reloc], index: usize) -> Option<Reloc>
    ensures { result ≡ slice_get relocs.now index }
{
    relocs.get(index).copied()
}

/// Appends the words of a part that begins at an address, and the labels of its end.
fn put_words<R: Remark>(
    said: &mut Said<'_, R>,
    text: &mut Text,
    part: Part,
    start: usize,
    words: &[u16],
    relocs: &[Reloc],
)
    requires { start < 131072 }
    ensures { PutsLines (AreWords start words.now relocs.now) text.old text.new }
{
    let mut at = (start % 65536) as u16;
    for (index, word) in words.iter().enumerate() {
        let place = Place { part, index, at };
        put_word(said, text, place, *word, reloc_at(relocs, index));
        at = at.wrapping_add(2);
    }
    said.put_labels(text, part, words.len());
}

/// A name as it prints.
fn printable(alloc: Global, name: &Name) -> Result<Vec<u8>, AllocError>
    ensures { IfOk result (λ v. v.items ≡ printable_name name.now) }
{
    let mut text = Text::new(alloc);
    text.put_printable_name(name.as_bytes());
    text.finish()
}

fn put_numbers<R: Remark>(
    said: &mut Said<'_, R>,
    text: &mut Text,
    blanks: usize,
    symbol: &Symbol,
    digits: &[u8],
)
    requires { digits.now ≡ octal symbol.now.type_bits }
    ensures { PutsSuch (λ bytes. (said : _) × IsRemark said
        × (bytes ≡ 32 ∷ (replicate blanks 32 ++ symbol_numbers said symbol.now))) text.old text.new }
{
    put_column(text, blanks, digits);
    put_word_column(text, 1, symbol.value);
    said.put_symbol(text, symbol);
}

/// Appends the number of a symbol and its name.
fn put_label(text: &mut Text, number: u16, name: &[u8])
    ensures { Puts text.old text.new (gap (wide 4 (octal number)) (octal number) name.now) }
{
    let mut buffer = OctalBuffer::new();
    let digits = buffer.format(u64::from(number));
    text.put_bytes(digits);
    put_column(text, wide(4, digits), name);
}

/// Appends an entry of the symbol table.
fn put_symbol<R: Remark>(said: &mut Said<'_, R>, text: &mut Text, number: u16, symbol: &Symbol)
    ensures { PutsLines (λ ls. (l : _) × IsSymbolLine number symbol.now l × (ls ≡ l ∷ [])) text.old text.new }
{
    let name = match printable(text.allocator(), &symbol.name) {
        Ok(name) => name,
        Err(error) => return text.cut(error),
    };
    let mut buffer = OctalBuffer::new();
    let digits = buffer.format(u64::from(symbol.type_bits));
    let blanks = wide(8, &name) + 3usize.saturating_sub(digits.len());
    put_label(text, number, &name);
    put_numbers(said, text, blanks, symbol, digits);
    text.put_byte(b'\n');
}

/// Appends the symbol table.
fn put_symbols<R: Remark>(said: &mut Said<'_, R>, text: &mut Text, symbols: &[Symbol])
    requires { length symbols.now < 5462 }
    ensures { PutsLines (AreSymbols 0 symbols.now) text.old text.new }
{
    let mut number = 0u16;
    for symbol in symbols {
        put_symbol(said, text, number, symbol);
        number += 1;
    }
}

/// Appends a line of the header.
fn put_named(text: &mut Text, word: &str, number: u16)
    ensures { Puts text.old text.new (named_line word.now number ++ 10 ∷ []) }
{
    text.put(word);
    put_word_column(text, 0, number);
    text.put_byte(b'\n');
}

/// Appends a line of the header, unless its number is the usual one.
fn put_unusual(text: &mut Text, usual: u16, word: &str, number: u16)
    ensures { Puts text.old text.new (text_of (unusual usual word.now number)) }
{
    if number != usual {
        put_named(text, word, number);
    }
}

/// Appends the magic number and the flag.
fn put_head(text: &mut Text, file: &File)
    ensures { Puts text.old text.new (text_of (head_lines file.now.header)) }
{
    let header = file.header();
    put_unusual(text, 0o407, "magic", header.magic);
    put_unusual(text, 0, "flag", header.flag);
}

/// Appends the size of bss, and the other words of the header.
fn put_bss(text: &mut Text, header: &Header)
    ensures { Puts text.old text.new (text_of (bss_lines header.now)) }
{
    text.put("bss ");
    text.put_octal(u64::from(header.bss_size));
    text.put_byte(b'\n');
    put_unusual(text, 0, "entry", header.entry_point);
    put_unusual(text, 0, "unused", header.unused);
}

/// Appends the listing of a file but for its last line, with these relocation words.
fn put_before_end<R: Remark>(
    remarks: &R,
    text: &mut Text,
    file: &File,
    text_relocs: &[Reloc],
    data_relocs: &[Reloc],
)
    ensures { PutsLines (IsBeforeEnd (record file.now { text_reloc = text_relocs.now; data_reloc = data_relocs.now }))
        text.old text.new }
{
    let header = file.header();
    let mut said = Said::new(text.allocator(), remarks);
    put_notes(text, remarks.notes());
    put_head(text, file);
    text.put("text\n");
    put_words(
        &mut said,
        text,
        Part::Text,
        0,
        file.text_words(),
        text_relocs,
    );
    text.put("data\n");
    put_words(
        &mut said,
        text,
        Part::Data,
        header.data_start(),
        file.data_words(),
        data_relocs,
    );
    put_bss(text, header);
    text.put("symbols\n");
    put_symbols(&mut said, text, file.symbols());
    put_notes(text, remarks.findings());
}

/// The listing of a file with its first relocation words alone, as they are in a file that ends early. It lacks the last line, so it is
/// not read as a file.
///
/// Errors: `AllocError` if memory runs out for the text.
pub fn write_cut_listing<R: Remark>(
    alloc: Global,
    file: &File,
    relocs: usize,
    remarks: &R,
) -> Result<Vec<u8>, AllocError> {
    let mut text = Text::new(alloc);
    let of_text = relocs.min(file.text_reloc().len());
    let of_data = (relocs - of_text).min(file.data_reloc().len());
    put_before_end(
        remarks,
        &mut text,
        file,
        &file.text_reloc()[..of_text],
        &file.data_reloc()[..of_data],
    );
    text.finish()
}

fn listing_of<R: Remark>(alloc: Global, file: &File, remarks: &R) -> Result<Vec<u8>, AllocError>
    ensures { IfOk result (λ v. IsListed file.now v.items) }
{
    let mut text = Text::new(alloc);
    put_before_end(
        remarks,
        &mut text,
        file,
        file.text_reloc(),
        file.data_reloc(),
    );
    text.put("end\n");
    text.finish()
}

/// Writes a file as a listing, with remarks. Whatever is remarked, reading the listing gives the file.
///
/// Errors: `AllocError` if memory runs out for the text.
pub fn write_listing<R: Remark>(
    alloc: Global,
    file: &File,
    remarks: &R,
) -> Result<Vec<u8>, AllocError>
    ensures lists { IfOk result (λ v. IsListed file.now v.items) }
    ensures again { IfOk result (λ v. read Compared v.items ≡ Ok file.now) }
{
    sound_law(file);
    listing_of(alloc, file, remarks)
}
