//! A text in columns.
ghost use Rattle.std.specs.Prelude.{◌≡◌, []};

use crate::label::put_labels;
use crate::listed::ListedLines;
use crate::named::NamedFile;
use crate::remarks::put_remarked_text;
use aout_core::{File, Segment};
use instructions::{Decoder, UnixLine, decode};
use std::alloc::AllocError;
use texts::{Text, six_digits};

/// Appends the address of a line and its first three words, up to the column of its text.
fn put_columns(text: &mut Text, address: u16, words: &[u16]) {
    let mut row = [b' '; 30];
    row[..6].copy_from_slice(&six_digits(u32::from(address)));
    if let Some(word) = words.first() {
        row[8..14].copy_from_slice(&six_digits(u32::from(*word)));
    }
    if let Some(word) = words.get(1) {
        row[15..21].copy_from_slice(&six_digits(u32::from(*word)));
    }
    if let Some(word) = words.get(2) {
        row[22..28].copy_from_slice(&six_digits(u32::from(*word)));
    }
    text.put_bytes(&row);
}

/// Appends a row of words, the first of them at an address, if there are any.
fn put_rest_row(text: &mut Text, address: u16, words: &[u16]) {
    let [first, rest @ ..] = words else {
        return;
    };
    text.put_six_digits(u32::from(address));
    text.put("  ");
    text.put_six_digits(u32::from(*first));
    for word in rest {
        text.put_byte(b' ');
        text.put_six_digits(u32::from(*word));
    }
    text.put_byte(b'\n');
}

/// Appends how often there is the row before, after the addresses of these rows: `: the row before, 8 times`.
pub fn put_again(text: &mut Text, times: u32) {
    match times {
        1 => text.put(": the row before, once\n"),
        _ => text.say(format_args!(": the row before, {times} times\n")),
    }
}

/// Appends the rows of the line at a place, with the labels before it. If more than eight words 0 are together there, the first has a row,
/// and a remark counts the others.
fn put_rows(
    text: &mut Text,
    decoder: Decoder,
    named: &NamedFile<'_>,
    place: usize,
    line: &UnixLine,
    count: usize,
) {
    let file = named.file();
    let address = (place.wrapping_mul(2) % 65536) as u16;
    put_labels(
        text,
        named,
        Segment::TextSeg,
        address,
        (count % 65536) as u16,
    );
    let shown = if count > 8 { 1 } else { count };
    let words = file
        .text_words()
        .get(place..place.wrapping_add(shown))
        .unwrap_or(&[]);
    put_columns(text, address, words);
    put_remarked_text(text, decoder, named, place, line);
    text.put_byte(b'\n');
    put_rest_row(text, address.wrapping_add(6), words.get(3..).unwrap_or(&[]));
    if count > 8 {
        let others = (count.wrapping_sub(1) % 65536) as u32;
        let first = u32::from(address).wrapping_add(2);
        let last = u32::from(address).wrapping_add(others.wrapping_mul(2));
        text.say(format_args!("/ {first:06o} to {last:06o}"));
        put_again(text, others);
    }
}

/// Appends the lines of a file's text in columns that begin at an address or after it, and before another one, with their labels; after the
/// last line of the text the labels of its end. An error: out of memory.
fn put_lines(
    text: &mut Text,
    decoder: Decoder,
    file: &File,
    first: usize,
    last: usize,
) -> Result<(), AllocError> {
    let named = NamedFile::new(text.allocator(), file)?;
    let lines = ListedLines::new(text.allocator(), file)?;
    let end = file.text_words().len();
    let mut place = 0;
    while place < end {
        let line = lines.at(decoder, place);
        let count = lines.shown_words(place, &line);
        let address = place.wrapping_mul(2);
        if first <= address && address < last {
            put_rows(text, decoder, &named, place, &line, count);
        }
        place += count;
    }
    let after = end.wrapping_mul(2);
    if after < last {
        put_labels(text, &named, Segment::TextSeg, (after % 65536) as u16, 0);
    }
    Ok(())
}

/// Appends the lines of a file's text in columns: the address, two blanks, one to three words in 20 columns, two blanks, and
/// the text of the line with its remarks. A system call may have more words, which are in a row below it. Labels precede their lines, and
/// those of the end of the text are last.
pub fn put_disassembly(text: &mut Text, decoder: Decoder, file: &File) {
    if let Err(error) = put_lines(text, decoder, file, 0, usize::MAX) {
        text.cut(error);
    }
}

/// Appends those of these lines that begin at an address or after it, and before another one.
pub fn put_disassembly_between(text: &mut Text, file: &File, first: u16, last: u16) {
    if let Err(error) = put_lines(
        text,
        Decoder::Unix,
        file,
        usize::from(first),
        usize::from(last),
    ) {
        text.cut(error);
    }
}

/// Appends the lines of words in the columns of `put_disassembly`, without names and labels. The first word is at the address,
/// and the address after 177776 is 0.
///
/// Memory may run out only if there are words.
pub fn put_plain_disassembly(text: &mut Text, address: u16, words: &[u16])
    ensures { words.now ≡ [] → text.new ≡ text.old }
{
    let mut next = address;
    let mut rest = words;
    while !rest.is_empty() {
        let line = decode(rest, 0);
        let count = line.length();
        put_columns(text, next, &rest[..count]);
        line.put_text(next, text);
        text.put_byte(b'\n');
        next = next.wrapping_add((2 * count) as u16);
        rest = &rest[count..];
    }
}
