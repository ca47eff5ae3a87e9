//! Laws of lines: each is the contract of a function with an empty body, but for `words_again`.
ghost use Rattle.std.specs.Prelude.{◌≡◌, ◌<◌, length, take, drop};
ghost use Rattle.instructions.specs.Lines.{line_at, line_length, listed};
ghost use Rattle.instructions.specs.Laws.{IdentityLaw, FirstWordLaw, SameTable, OneRow, RowsAreFound, TotalLaw};
ghost use Rattle.instructions.specs.UnixLaws.{UnixIdentityLaw, UnixFirstWordLaw, UnixTotalLaw, SameCalls, AreMadeBySys};
ghost use Rattle.instructions.specs.Calls.{system_calls};

use crate::line::{Words, decode, encode};

/// The words of the line that is decoded at a place, which are those of the list.
#[tactic(auto, using(crate::proofs::LineLemmas::start_again, crate::proofs::LineLemmas::identity))]
pub fn words_again(words: &[u16], place: usize) -> Words
    requires { place < length words.now }
    ensures { listed result ≡ take (line_length (line_at words.now place)) (drop place words.now) }
{
    encode(&decode(words, place))
}

/// At each place of every list of words, the words of the line that is decoded there are those of the list.
pub fn identity_law()
    ensures { IdentityLaw }
{}

/// The first word alone decides the operation, the modes, the registers and the length of its line, if enough words follow
/// it. (the handbook of the PDP-11/70)
pub fn first_word_law()
    ensures { FirstWordLaw }
{}

/// Every list of words is decoded whole, in lines of one to three words without a gap.
pub fn total_law()
    ensures { TotalLaw }
{}

/// The table of the code is that of the manual. (as(1), the handbook of the PDP-11/70)
///
/// - `same`: its rows are those of `table` in specs/Table, in the order of their bases.
/// - `one`: each word is in one row at most.
/// - `found`: each row is found at its base, so none is there in vain.
pub fn table_law()
    ensures same { SameTable }
    ensures one { OneRow }
    ensures found { RowsAreFound }
{}

/// With either decoder the words of each line are those of the list, the arguments of a system call too.
pub fn unix_identity_law()
    ensures { UnixIdentityLaw }
{}

/// With either decoder the first word alone decides which call or instruction it begins, and the length, if enough words follow
/// it. (section 2 of the Unix Programmer's Manual, Seventh Edition)
pub fn unix_first_word_law()
    ensures { UnixFirstWordLaw }
{}

/// With either decoder every list of words is decoded whole, in lines of one to five words without a gap.
pub fn unix_total_law()
    ensures { UnixTotalLaw }
{}

/// The table of calls of the code is that of the manual. (section 2 of the Unix Programmer's Manual, Seventh Edition)
///
/// - `same`: its rows are those of `system_calls` in specs/Calls.
/// - `sys`: each call is made by `sys` with its number.
pub fn call_table_law()
    ensures same { SameCalls }
    ensures sys { AreMadeBySys system_calls }
{}
