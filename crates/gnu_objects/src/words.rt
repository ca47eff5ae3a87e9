//! Words and relocation words.
ghost use Rattle.std.specs.Prelude.{◌≡◌, ◌+◌, ◌*◌, ◌≤◌, IfOk, length, map};
ghost use Rattle.gnu_objects.specs.{GnuForm.words_from, Converted.renumbered};

use crate::bytes::word_at;
use crate::staying::{count, refers};
use aout_core::Reloc;
use std::alloc::{AllocError, Global};

/// So many words from a place on.
#[tactic(auto, using(crate::proofs::RowLemmas::rows))]
pub(crate) fn words_from(
    alloc: Global,
    bytes: &[u8],
    at: usize,
    count: usize,
) -> Result<Vec<u16>, AllocError>
    requires { at + 2 * count ≤ length bytes.now }
    ensures { IfOk result (λ v. v.items ≡ words_from bytes.now at count) }
{
    let mut words = Vec::new(alloc);
    for n in 0..count {
        words.push(word_at(bytes, at + 2 * n))?;
    }
    Ok(words)
}

/// A relocation word, an external by its number among the symbols that stay.
fn renumbered(flags: &[bool], word: u16) -> Reloc
    ensures { result ≡ renumbered flags.now word }
{
    if !refers(word) {
        return Reloc(word);
    }
    let before = &flags[..usize::from(word / 16).min(flags.len())];
    Reloc(16 * count(before) as u16 + word % 16)
}

/// Relocation words, externals by their numbers among the symbols that stay.
pub(crate) fn all_renumbered(
    alloc: Global,
    flags: &[bool],
    words: &[u16],
) -> Result<Vec<Reloc>, AllocError>
    ensures { IfOk result (λ v. v.items ≡ map (renumbered flags.now) words.now) }
{
    words
        .iter()
        .map(|word| renumbered(flags, *word))
        .collect(alloc)
}
