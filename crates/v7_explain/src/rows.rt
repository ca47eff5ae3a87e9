//! Rows of eight words, each with its address and its bytes as characters, and labels before them.

use aout_core::Segment;
use disassemblies::{NamedFile, put_again, put_labels};
use texts::Text;

/// How many words a row has.
const ROW: usize = 8;

/// A byte as a character, or a point if it does not print.
fn character(byte: u8) -> u8 {
    if b' ' <= byte && byte < 127 {
        byte
    } else {
        b'.'
    }
}

/// Appends a row: its address, its words, and their bytes as characters, the low byte of each first.
fn put_row(text: &mut Text, at: u32, row: &[u16]) {
    text.say(format_args!("{:06o} ", at % 65536));
    for word in row {
        text.say(format_args!(" {:06o}", *word));
    }
    text.put_blanks(ROW.saturating_sub(row.len()).saturating_mul(7));
    text.put("  ");
    for word in row {
        text.put_byte(character((*word % 256) as u8));
        text.put_byte(character((*word / 256) as u8));
    }
    text.put("\n");
}

/// Appends a remark on so many rows before an address that are as the row before them, if there are any.
fn put_folded(text: &mut Text, at: u32, times: u32) {
    let first = at.wrapping_sub(times.wrapping_mul(16)) % 65536;
    let last = at.wrapping_sub(16) % 65536;
    match times {
        0 => return,
        1 => text.say(format_args!("/ {last:06o}")),
        _ => text.say(format_args!("/ {first:06o} to {last:06o}")),
    }
    put_again(text, times);
}

/// Appends the labels of so many words from an address of a segment on.
pub(crate) fn put_labels_at(
    text: &mut Text,
    file: &NamedFile<'_>,
    segment: Segment,
    at: u32,
    count: u16,
) {
    put_labels(text, file, segment, (at % 65536) as u16, count);
}

/// Appends the words of a segment from an address on, in rows. Rows without labels that are the same as the row before them are counted
/// in a remark.
pub(crate) fn put_rows(
    text: &mut Text,
    file: &NamedFile<'_>,
    segment: Segment,
    start: u32,
    words: &[u16],
) {
    let mut at = start;
    let mut last: &[u16] = &[];
    let mut times = 0u32;
    for row in words.chunks(ROW) {
        let mut labels = Text::new(text.allocator());
        put_labels_at(&mut labels, file, segment, at, (row.len() % 65536) as u16);
        let labels = match labels.finish() {
            Ok(labels) => labels,
            Err(error) => return text.cut(error),
        };
        if labels.is_empty() && row == last {
            times = times.saturating_add(1);
        } else {
            put_folded(text, at, times);
            text.put_bytes(&labels);
            put_row(text, at, row);
            last = row;
            times = 0;
        }
        at = at.wrapping_add(16);
    }
    put_folded(text, at, times);
}
