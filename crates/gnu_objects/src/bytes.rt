//! Numbers in the bytes of a file.
ghost use Rattle.std.specs.Prelude.{◌≡◌, ◌+◌, ◌≤◌, length};
ghost use Rattle.gnu_objects.specs.GnuForm.{word_at, long_at};

/// The word at a place, low byte first.
pub(crate) fn word_at(bytes: &[u8], at: usize) -> u16
    requires { at + 2 ≤ length bytes.now }
    ensures { result ≡ word_at bytes.now at }
{
    u16::from(bytes[at]) + 256 * u16::from(bytes[at + 1])
}

/// The number of two words at a place, high word first.
pub(crate) fn long_at(bytes: &[u8], at: usize) -> u32
    requires { at + 4 ≤ length bytes.now }
    ensures { result ≡ long_at bytes.now at }
{
    65536 * u32::from(word_at(bytes, at)) + u32::from(word_at(bytes, at + 2))
}
