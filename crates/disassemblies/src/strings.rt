//! Strings in data.

use texts::Text;

/// How many bytes of a string are shown.
const SHOWN: usize = 40;

/// The byte at a place of words, which counts bytes.
fn byte_in(words: &[u16], place: usize) -> Option<u8> {
    let bytes = words.get(place / 2)?.to_le_bytes();
    Some(bytes[place % 2])
}

/// Whether a byte of text is at a place.
fn is_text(words: &[u16], place: usize) -> bool {
    match byte_in(words, place) {
        Some(byte) => byte == b'\t' || byte == b'\n' || (b' ' <= byte && byte < 127),
        None => false,
    }
}

/// How many bytes from a place on are bytes of text: one more than are shown, if there are so many.
fn run(words: &[u16], place: usize) -> usize {
    for count in 0..SHOWN + 1 {
        if !is_text(words, place.wrapping_add(count)) {
            return count;
        }
    }
    SHOWN + 1
}

/// Whether so many bytes of text from a place on are a string.
fn is_string_of(words: &[u16], place: usize, count: usize) -> bool {
    count > SHOWN || (count >= 2 && byte_in(words, place.wrapping_add(count)) == Some(0))
}

/// Whether there is a string at a place of words, which counts bytes.
pub(crate) fn is_string(words: &[u16], place: usize) -> bool {
    is_string_of(words, place, run(words, place))
}

fn put_character(text: &mut Text, byte: u8) {
    match byte {
        b'\t' => text.put("\\t"),
        b'\n' => text.put("\\n"),
        b'"' | b'\\' => text.put_bytes(&[b'\\', byte]),
        _ => text.put_byte(byte),
    }
}

/// Appends the string at a place of words, which counts bytes, and a text before it; nothing if there is no string.
pub(crate) fn put_string(text: &mut Text, before: &str, words: &[u16], place: usize) {
    let count = run(words, place);
    if !is_string_of(words, place, count) {
        return;
    }
    text.put(before);
    text.put_byte(b'"');
    for done in 0..count.min(SHOWN) {
        if let Some(byte) = byte_in(words, place.wrapping_add(done)) {
            put_character(text, byte);
        }
    }
    text.put(if count > SHOWN { "\".." } else { "\"" });
}

/// Appends the string that begins in a word of data, in quotation marks: two or more bytes of text and a NUL, after a byte that is not
/// of text. At most 40 bytes are shown. If none begins there, nothing is appended.
pub fn put_string_in(text: &mut Text, words: &[u16], place: usize) {
    let first = place.wrapping_mul(2);
    for place in [first, first.wrapping_add(1)] {
        if place == 0 || !is_text(words, place.wrapping_sub(1)) {
            put_string(text, "", words, place);
        }
    }
}
