//! References, which are shown in place of numbers. Only tested: what they say.
use aout_core::Name;
use texts::Text;

/// A name, and how far beyond it. (as(1))
#[derive(Clone, Copy, Debug, PartialEq, Eq)]
pub struct Reference {
    pub name: Name,
    /// In bytes, modulo 65,536: above 077777 it is before the name.
    pub offset: u16,
}

/// The references that are shown in place of the numbers of a line's operands.
#[derive(Clone, Copy, Debug, PartialEq, Eq)]
pub struct References {
    pub first: Option<Reference>,
    pub second: Option<Reference>,
}

/// Whether a byte of a name stands for itself.
fn is_plain(byte: u8) -> bool {
    byte.is_ascii_alphanumeric() || matches!(byte, b'.' | b'_' | b'~')
}

/// Whether a name begins like a number, or is that of a register or an accumulator.
fn is_taken(name: &[u8]) -> bool {
    match name {
        [b'0'..=b'9', ..] | [b'r', b'0'..=b'5'] | b"sp" | b"pc" | [b'f', b'r', b'0'..=b'5'] => true,
        _ => false,
    }
}

/// Appends a name as the assembler has it. A byte that is not a letter, a digit, `_`, `.` or `~` is a backslash and three octal
/// digits; so is the first one of a name that begins with a digit or is a register's, and an empty name is `\000`.
pub fn put_assembly_name(text: &mut Text, name: &Name) {
    let bytes = name.as_bytes();
    if bytes.is_empty() {
        return text.put_escaped(0);
    }
    let mut escapes = is_taken(bytes);
    for byte in bytes {
        if escapes || !is_plain(*byte) {
            text.put_escaped(*byte);
        } else {
            text.put_byte(*byte);
        }
        escapes = false;
    }
}

impl Reference {
    /// Appends the name and, unless it is 0, the offset: `_x`, `_x+2` or `_x-2`. (as(1))
    pub fn put_text(&self, text: &mut Text) {
        put_assembly_name(text, &self.name);
        let (sign, distance) = match self.offset {
            0 => return,
            offset if offset < 0o100000 => (b'+', u32::from(offset)),
            offset => (b'-', 0o200000 - u32::from(offset)),
        };
        text.put_byte(sign);
        text.put_octal(u64::from(distance));
    }
}
