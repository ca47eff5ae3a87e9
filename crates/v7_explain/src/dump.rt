//! A dump of the text and the data of a file.

use crate::rows::{put_labels_at, put_rows};
use aout_core::{File, Segment};
use disassemblies::{NamedFile, SEGMENT_WORDS};
use texts::Text;

/// Appends a segment, which begins at this address, and the labels of its end.
fn put_segment(
    text: &mut Text,
    file: &NamedFile<'_>,
    segment: Segment,
    name: &str,
    start: usize,
    words: &[u16],
) {
    let size = words.len().saturating_mul(2);
    let at = (start % 65536) as u32;
    text.say(format_args!("/ {name}: {size} bytes from {at:06o}\n"));
    put_rows(text, file, segment, at, words);
    put_labels_at(text, file, segment, at + (size % 65536) as u32, 0);
}

/// Appends the text and the data of a file, whose symbols are found by their values, and the labels of bss, which begins where data end.
fn put_named(text: &mut Text, named: &NamedFile<'_>) {
    let file = named.file();
    let (words, data) = (file.text_words(), file.data_words());
    let start = file.header().data_start();
    let end = start.saturating_add(data.len().saturating_mul(2));
    put_segment(text, named, Segment::TextSeg, "text", 0, words);
    put_segment(text, named, Segment::DataSeg, "data", start, data);
    let at = (end % 65536) as u32;
    put_labels_at(text, named, Segment::BssSeg, at, SEGMENT_WORDS);
}

/// Appends the text and the data of a file, in rows of eight words with their addresses and with their bytes as characters, and with
/// labels before their rows.
pub(crate) fn put_dump(text: &mut Text, file: &File) {
    match NamedFile::new(text.allocator(), file) {
        Ok(named) => put_named(text, &named),
        Err(error) => text.cut(error),
    }
}
