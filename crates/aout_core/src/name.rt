//! The name of a symbol.
ghost use Rattle.std.specs.Prelude.{◌≡◌, ℕ, ◌-◌, ◌<◌, ◌≤◌, [], ◌∷◌, ◌++◌, get_or, take, replicate, length, Some, nat_eq, refl};
ghost use Rattle.std.specs.{Int.{w64, from_be_bytes}, Ordering.nat_cmp, Cmp.partial_equiv_from_equiv};
ghost use Rattle.std.specs.Cmp.Lexicographic.{pointwise, slice_cmp, nat_list_eq_equiv, nat_list_cmp_total, texts_po, texts_ties, same_text};
ghost use Rattle.std.proofs.Common.{sym, ap};
ghost use Rattle.aout_core.specs.Names.{before_nul, padded};

use std::cmp::Ordering;
use std::hash::{Hash, Hasher};
use std::marker::Model;
use std::simd::prelude::*;

/// The name of a symbol: at most 8 bytes, none of them NUL. Names are compared by their bytes. (a.out(5))
#[derive(Clone, Copy, Debug)]
pub struct Name {
    /// The name, and NULs up to the eighth byte.
    padded_bytes: [u8; 8],
}

impl Model for Name {
    ghost use Rattle.std.specs.Prelude.{ℕ, List};

    ghost Value = { List ℕ };

    ghost use Rattle.std.specs.Prelude.{◌≡◌};
    ghost use Rattle.aout_core.specs.{Names.{before_nul, padded}, internal.NameBytes.from_padded};

    ghost view = { λ a. before_nul a.padded_bytes };

    ghost invariant = { λ a. padded (before_nul a.padded_bytes) ≡ a.padded_bytes };

    ghost inverse = { λ name. record { padded_bytes = padded name } };

    ghost inverse_ok = { from_padded };
}

/// The places of eight bytes.
const PLACES: [u8; 8] = [0, 1, 2, 3, 4, 5, 6, 7];

/// How many of eight bytes come before the first NUL.
fn end_of(bytes: [u8; 8]) -> usize
    ensures { result ≡ length (before_nul bytes) }
{
    let nuls = u8x8::from_array(bytes).simd_eq(u8x8::splat(0)).to_bitmask();
    if nuls == 0 {
        8
    } else {
        nuls.trailing_zeros() as usize
    }
}

/// The first `end` of eight bytes, and NULs after them.
fn cut_at(bytes: [u8; 8], end: usize) -> [u8; 8]
    requires { end ≤ 8 }
    ensures { result ≡ take end bytes ++ replicate (8 - end) 0 }
{
    u8x8::from_array(PLACES)
        .simd_lt(u8x8::splat(end as u8))
        .select(u8x8::from_array(bytes), u8x8::splat(0))
        .to_array()
}

/// Eight bytes as one number, the first byte the highest.
fn number_of(bytes: [u8; 8]) -> u64
    ensures value { result ≡ from_be_bytes w64 bytes }
    ensures eight { length bytes ≡ 8 }
    ensures small { (i : ℕ) → get_or bytes i 0 < 256 }
{
    u64::from_be_bytes(bytes)
}

impl Name {
    /// The name in these bytes: those before the first NUL, at most 8. (a.out(5); NULs: own choice)
    pub fn from_bytes(text: &[u8]) -> Name
        ensures { result ≡ take 8 (before_nul text.now) }
    {
        let mut bytes = [0; 8];
        let len = text.len().min(8);
        bytes[..len].copy_from_slice(&text[..len]);
        Name::from_padded(bytes)
    }

    /// The name in eight bytes: those before the first NUL.
    pub(crate) fn from_padded(bytes: [u8; 8]) -> Name
        ensures { result ≡ before_nul bytes }
    {
        Name {
            padded_bytes: cut_at(bytes, end_of(bytes)),
        }
    }

    /// The bytes of the name, without padding. (a.out(5))
    #[tactic(auto, using(crate::proofs::NameLemmas::by_place))]
    pub fn as_bytes(&self) -> &[u8]
        ensures value { result.now ≡ self.now }
        ensures short { length result.now ≤ 8 }
        ensures no_nul { before_nul result.now ≡ result.now }
    {
        let end = end_of(self.padded_bytes);
        &self.padded_bytes[..end]
    }

    /// The name as it is written: 8 bytes, padded with NULs.
    pub(crate) fn to_padded(&self) -> [u8; 8]
        ensures { result ≡ padded self.now }
    {
        self.padded_bytes
    }
}

impl PartialEq for Name {
    ghost eq = { pointwise nat_eq };

    ghost laws = { partial_equiv_from_equiv nat_list_eq_equiv };

    fn eq(&self, other: &Name) -> bool {
        number_of(self.padded_bytes) == number_of(other.padded_bytes)
    }
}

impl Eq for Name {
    ghost laws = { nat_list_eq_equiv };
}

impl PartialOrd for Name {
    ghost partial_cmp = { λ a b. Some (slice_cmp nat_cmp a b) };

    ghost laws = { texts_po };

    fn partial_cmp(&self, other: &Name) -> Option<Ordering> {
        Some(self.cmp(other))
    }
}

impl Ord for Name {
    ghost cmp = { slice_cmp nat_cmp };

    ghost total = { nat_list_cmp_total };

    ghost matches_partial_cmp = { λ a b. refl };

    ghost matches_eq = { texts_ties };

    fn cmp(&self, other: &Name) -> Ordering {
        number_of(self.padded_bytes).cmp(&number_of(other.padded_bytes))
    }
}

impl Hash for Name {
    ghost hash_input = { λ name. padded name ∷ [] };

    ghost respects_eq = { λ x y h. ap (λ name. padded name ∷ []) (same_text x y (sym h)) };

    fn hash<H: Hasher>(&self, state: &mut H) {
        state.write(&self.padded_bytes);
    }
}
