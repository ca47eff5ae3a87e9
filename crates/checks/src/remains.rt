//! What is there of a file that ends early: its words and its symbols that are whole. Only tested: all of it.
ghost use Rattle.std.specs.Prelude.{◌<◌, ◌≤◌, length};

use crate::other_files::header_of;
use crate::places::FilePlaces;
use aout_core::{File, Header, ReadFault, decode_file};
use std::alloc::{AllocError, Global};
use texts::Text;

/// How many of so many bytes are those of whole items of this width in a part that begins at a place and has this size.
fn size_there(count: usize, from: usize, size: u16, width: usize) -> u16
    requires { 0 < width }
{
    (count.saturating_sub(from) / width * width).min(usize::from(size)) as u16
}

/// The header with the sizes of what so many bytes have.
fn header_there(header: &Header, count: usize) -> Header {
    let places = FilePlaces::of(header);
    Header {
        text_size: size_there(count, places.text, header.text_size, 2),
        data_size: size_there(count, places.data, header.data_size, 2),
        symbol_size: size_there(count, places.symbols, header.symbol_size, 12),
        ..*header
    }
}

/// How many relocation words there are in so many bytes of a file with this header; if there are more, symbols follow.
pub fn relocs_there(header: &Header, count: usize) -> usize {
    count.saturating_sub(FilePlaces::of(header).relocation) / 2
}

/// The whole words after a header, and zeros.
fn bytes_under(alloc: Global, header: &Header, bytes: &[u8]) -> Result<Vec<u8>, AllocError>
    requires { 16 ≤ length bytes.now }
{
    let mut there = Vec::new(alloc);
    there.extend_from_slice(&header.to_bytes())?;
    there.extend_from_slice(&bytes[16..bytes.len() / 2 * 2])?;
    for _ in 0..FilePlaces::of(header).end {
        there.push(0)?;
    }
    Ok(there)
}

/// The file of what is there of a file that ends early. Relocation words that are missing are 0.
///
/// Errors: `AllocError` if memory runs out. No file is there of fewer than 16 bytes, with another magic number, or of odd sizes.
pub fn decode_there(alloc: Global, bytes: &[u8]) -> Result<Result<File, ReadFault>, AllocError> {
    let Some(header) = header_of(bytes) else {
        return Ok(Err(ReadFault::ShortHeader));
    };
    let there = header_there(&header, bytes.len());
    let bytes = bytes_under(alloc, &there, bytes)?;
    decode_file(alloc, &bytes)
}

/// Appends where a file of so many bytes ends, and what of its parts is missing.
pub fn put_missing(text: &mut Text, header: &Header, count: usize) {
    let there = header_there(header, count);
    let words = header.text_size.saturating_sub(there.text_size) / 2;
    let data = header.data_size.saturating_sub(there.data_size) / 2;
    let symbols = header.symbol_size.saturating_sub(there.symbol_size) / 12;
    let places = FilePlaces::of(header);
    let all = places.symbols.saturating_sub(places.relocation) / 2;
    let relocs = all.saturating_sub(relocs_there(header, count));
    text.say(format_args!(
        "the file ends at byte 0{count:o} ({count}); missing words: {words} of text, {data} of data, {relocs} of relocation; \
         missing symbols: {symbols}"
    ));
}
