//! What a file has under a name or at an address. Only tested: the text. Proved: whether what is asked is absent.
ghost use Rattle.std.specs.Prelude.{◌≡◌, ◌+◌, Ok, IfOk};
ghost use Rattle.aout_core.specs.{Addresses.data_start_in, Decoding.decode};
ghost use Rattle.v7_explain.specs.Files.{AnswersAt, HasStatus, has_address, status_asked};

use crate::asked::{is_named, octal_number};
use crate::explaining::MOST_BYTES;
use crate::functions::with_functions;
use crate::map_names::{put_line, put_word, put_words};
use crate::map_spots::put_byte;
use crate::program::NAME;
use crate::source::{Source, refuse};
use aout_core::{File, Header, Name, Part, Segment, decode_file};
use disassemblies::{NamedFile, put_disassembly_between};
use host::{Answer, Fault, FileSystem, read_whole};
use link_maps::{Places, is_function, is_within, label_before, words_at, words_to};
use std::alloc::{AllocError, Global};
use texts::{Printable, Text};

/// Where the segments of a file lie.
fn places_in(header: &Header) -> Places
    ensures text { result.text ≡ 0 }
    ensures second { result.«data» ≡ data_start_in header.now }
    ensures bss { result.bss ≡ data_start_in header.now + header.now.data_size }
{
    let data = header.data_start() as u64;
    Places {
        text: 0,
        data,
        bss: data + u64::from(header.data_size),
    }
}

/// Whether text, data or bss has an address.
fn has_address(header: &Header, address: Option<u64>) -> bool
    ensures { result ≡ has_address header.now address }
{
    let at = places_in(header);
    match address {
        Some(address) => {
            is_within(at.text, header.text_size, address)
                || is_within(at.data, header.data_size, address)
                || is_within(at.bss, header.bss_size, address)
        }
        None => false,
    }
}

/// The status of an answer: 1 if a file has neither a symbol of this name nor this address in octal digits.
fn status_asked(file: &File, what: &str) -> u8
    ensures { result ≡ status_asked what.now (Ok file.now) }
{
    let is_there = is_named(file.symbols(), &Name::from_bytes(what.as_bytes()))
        || has_address(file.header(), octal_number(what.as_bytes()));
    if is_there { 0 } else { 1 }
}

/// Adds what a file has at an address, in each segment that has it, and of the text of a program the words that lead there.
fn put_address(text: &mut Text, named: &NamedFile<'_>, address: u64) -> Result<(), AllocError> {
    let (file, header) = (named.file(), named.file().header());
    let (at, value) = (places_in(header), (address % 65536) as u16);
    if is_within(at.text, header.text_size, address) {
        put_word(text, named, Part::Text, value, address)?;
        if header.flag != 0 {
            let callers = words_at(text.allocator(), file, Segment::TextSeg, value)?;
            put_words(text, named, &at, &callers.references);
        }
    }
    if is_within(at.data, header.data_size, address) {
        put_byte(text, file.symbols(), "data", address, value)?;
    }
    if is_within(at.bss, header.bss_size, address) {
        put_byte(text, file.symbols(), "bss", address, value)?;
    }
    Ok(())
}

/// Adds what a file has under a name: for each symbol its line as `nm` has it, and the words that lead there, as far as the file shows them.
fn put_named(text: &mut Text, named: &NamedFile<'_>, name: &Name) -> Result<(), AllocError> {
    let file = named.file();
    let header = file.header();
    for (number, symbol) in file.symbols().iter().enumerate() {
        if symbol.name == *name {
            put_line(text, Some(*symbol), symbol);
            let words = if header.flag == 0 {
                words_to(text.allocator(), file, number)?
            } else {
                words_at(text.allocator(), file, symbol.segment(), symbol.value)?
            };
            put_words(text, named, &places_in(header), &words.references);
            if !words.near.is_empty() {
                text.put("    perhaps\n");
                put_words(text, named, &places_in(header), &words.near);
            }
        }
    }
    Ok(())
}

/// Where the function begins and ends that is asked for: that of this name, or the one before this address of text, up to the next function.
fn function_of(alloc: Global, file: &File, what: &str) -> Result<Option<(u16, u16)>, AllocError> {
    let size = file.header().text_size;
    let name = Name::from_bytes(what.as_bytes());
    let mut symbols = file.symbols().iter();
    let start = match (
        symbols.find(|symbol| symbol.name == name && symbol.segment() == Segment::TextSeg),
        octal_number(what.as_bytes()),
    ) {
        (Some(symbol), _) => symbol.value,
        (None, Some(address)) if is_within(0, size, address) => {
            let value = (address % 65536) as u16;
            match label_before(alloc, file.symbols(), Segment::TextSeg, value)? {
                Some(before) => value.saturating_sub(before.offset),
                None => 0,
            }
        }
        _ => return Ok(None),
    };
    let mut end = size;
    for symbol in file.symbols() {
        let at = symbol.value;
        if symbol.segment() == Segment::TextSeg && is_function(symbol) && start < at && at < end {
            end = at;
        }
    }
    Ok(Some((start, end)))
}

/// Adds what a file has of what is asked, or the function that is asked for.
fn put_answer(
    text: &mut Text,
    file: &File,
    what: &str,
    shows_function: bool,
) -> Result<(), AllocError> {
    let alloc = text.allocator();
    let functions = with_functions(alloc, file)?;
    let shown = functions.as_ref().unwrap_or(file);
    if shows_function
        && status_asked(file, what) == 0
        && let Some((start, end)) = function_of(alloc, shown, what)?
    {
        put_disassembly_between(text, shown, start, end);
        return Ok(());
    }
    let named = NamedFile::new(alloc, shown)?;
    let name = Name::from_bytes(what.as_bytes());
    let address = octal_number(what.as_bytes());
    if is_named(file.symbols(), &name) {
        return put_named(text, &named, &name);
    }
    if let Some(address) = address
        && has_address(file.header(), Some(address))
    {
        return put_address(text, &named, address);
    }
    let is_decimal = address.is_none()
        && what
            .as_bytes()
            .iter()
            .all(|byte| matches!(byte, b'0'..=b'9'));
    let hint = if is_decimal {
        "; addresses are octal"
    } else {
        ""
    };
    text.say(format_args!("{}: not in the file{hint}\n", Printable(what.as_bytes())));
    Ok(())
}

/// What the bytes of a file have of what is asked.
fn answer_bytes(
    alloc: Global,
    what: &str,
    shows_function: bool,
    source: Source<'_>,
) -> Result<Answer, AllocError>
    ensures { IfOk result (λ answer.
        HasStatus (status_asked what.now (decode source.entry.bytes.now)) answer) }
{
    let file = match decode_file(alloc, source.bytes)? {
        Ok(file) => file,
        Err(fault) => return refuse(alloc, None, source, false, fault),
    };
    let mut text = Text::new(alloc);
    put_answer(&mut text, &file, what, shows_function)?;
    Ok(Answer {
        output: text.finish()?,
        errors: Vec::new(alloc),
        status: status_asked(&file, what),
    })
}

/// What the file at a path has of what is asked: a symbol of this name, or this address; with its instructions, if a function is to be
/// shown.
pub(crate) fn answer_at<O: FileSystem>(
    alloc: Global,
    file_system: &mut O,
    what: &str,
    shows_function: bool,
    path: &str,
) -> Result<Answer, Fault>
    ensures { AnswersAt what.now path.now (O.history file_system.old) (O.history file_system.new) result }
{
    let bytes = read_whole(alloc, file_system, NAME, path, MOST_BYTES)?;
    let source = Source {
        path,
        bytes: &bytes,
    };
    Ok(answer_bytes(alloc, what, shows_function, source)?)
}
