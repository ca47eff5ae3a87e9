//! Bytes of names as they print.
ghost use Rattle.std.specs.Prelude.{◌≡◌, ◌∷◌};
ghost use Rattle.texts.specs.Names.{escaped, is_printable};

use crate::numbers::three_digits;

/// Whether a byte of a name is shown as it is: it prints in ASCII, and is not a blank or a backslash.
pub fn is_printable(byte: u8) -> bool
    ensures { result ≡ is_printable byte }
{
    byte > b' ' && byte < 127 && byte != b'\\'
}

/// A byte as a backslash and three octal digits.
pub(crate) fn escaped(byte: u8) -> [u8; 4]
    ensures { result ≡ escaped byte }
{
    let [first, second, third] = three_digits(u32::from(byte));
    [b'\\', first, second, third]
}
