//! Labels: the symbols of a segment, at their addresses.

use crate::named::NamedFile;
use crate::names::Names;
use aout_core::Segment;
use instructions::put_assembly_name;
use texts::Text;

/// Appends the labels after an address and before an end.
fn put_labels_within(
    text: &mut Text,
    names: &Names<'_>,
    segment: Segment,
    address: u16,
    end: usize,
) {
    for symbol in names.symbols {
        if symbol.type_bits % 0o40 == segment.number()
            && let Some(beyond) = symbol.value.checked_sub(address)
            && beyond > 0
            && usize::from(symbol.value) < end
        {
            put_assembly_name(text, &symbol.name);
            text.put(" = .+");
            text.put_octal(u64::from(beyond));
            text.put_byte(b'\n');
        }
    }
}

/// Appends the labels of so many words from an address of a segment on, of none for its end: a line `NAME:` for each symbol of the
/// segment with this address, and then a line `NAME = .+K` for each with an address within the words, K bytes on. Both are in
/// the order of the table. (as(1); labels within a line: own choice)
pub fn put_labels(
    text: &mut Text,
    file: &NamedFile<'_>,
    segment: Segment,
    address: u16,
    length: u16,
) {
    if file.is_bare(address, length) {
        return;
    }
    let names = file.names();
    let start = usize::from(address);
    let end = start + (2 * usize::from(length)).max(1);
    let mut are_at = true;
    for symbol in names.between(segment, start, end) {
        are_at = symbol.value == address;
        if are_at {
            put_assembly_name(text, &symbol.name);
            text.put(":\n");
        }
    }
    if !are_at {
        put_labels_within(text, names, segment, address, end);
    }
}
