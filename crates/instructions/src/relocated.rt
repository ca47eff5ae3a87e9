//! Which words a link changes.
ghost use Rattle.std.specs.Prelude.{◌≡◌};
ghost use Rattle.instructions.specs.Relocated.{is_relocated};

use aout_core::Reloc;

/// Whether a word with this relocation word, if it has one, is relocated: the low four bits are not all 0. A word that is
/// relocated begins no instruction. (a.out(5); that it begins none: own choice)
pub fn is_relocated(reloc: Option<Reloc>) -> bool
    ensures { result ≡ is_relocated reloc }
{
    match reloc {
        Some(reloc) => reloc.0 % 0o20 != 0,
        None => false,
    }
}
