//! Stripping a file.
ghost use Rattle.std.specs.Prelude.{◌≡◌};
ghost use Rattle.aout_core.specs.Strip.{stripped};

use crate::file::File;

/// The file without relocation and symbols: its symbol size becomes 0 and its flag 1, and the other words of the header
/// stay. (strip(1); the flag: own choice)
pub fn strip_file(file: File) -> File
    ensures { result ≡ stripped file }
{
    let mut parts = file.into_parts();
    parts.header.symbol_size = 0;
    parts.header.flag = 1;
    parts.text_reloc.clear();
    parts.data_reloc.clear();
    parts.symbols.clear();
    File::from_parts(parts)
}
