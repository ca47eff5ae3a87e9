//! The addresses of a file.
ghost use Rattle.std.specs.Prelude.{◌≡◌, ◌<◌};
ghost use Rattle.aout_core.specs.Addresses.{data_start, next_boundary, pc_target};

/// The next multiple of 020000 bytes, the piece that the PDP-11 maps; a multiple is its own next one. (ld(1))
pub fn next_boundary(bytes: usize) -> usize
    requires { bytes < 65536 }
    ensures value { result ≡ next_boundary bytes }
    ensures bound { result < 131072 }
{
    (bytes + 0o17777) / 0o20000 * 0o20000
}

/// The address at which data begins, by the magic number and the bytes of text: after text, with magic 0410 at the next
/// multiple of 020000, and with 0411 at 0. (a.out(5))
pub fn data_start(magic: u16, text_size: usize) -> usize
    requires { text_size < 65536 }
    ensures value { result ≡ data_start magic text_size }
    ensures bound { result < 131072 }
{
    match magic {
        0o410 => next_boundary(text_size),
        0o411 => 0,
        _ => text_size,
    }
}

/// What a word at an address refers to if it is relative to the pc: the word counts from the address after it. (a.out(5))
pub fn pc_target(word: u16, address: u16) -> u16
    ensures { result ≡ pc_target word address }
{
    word.wrapping_add(address).wrapping_add(2)
}
