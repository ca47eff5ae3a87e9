//! Which row of the table a word is in.
ghost use Rattle.std.specs.Prelude.{◌≡◌, ◌*◌, ◌/◌, ◌%◌};
ghost use Rattle.instructions.specs.Rows.{part, begins, row_of};

use crate::field::Field;
use crate::table::{ROWS, Row};

/// What a field adds to the base in a first word.
fn part(field: Option<Field>, word: u16) -> u32
    ensures { result ≡ part field word }
{
    match field {
        Some(field) => u32::from(word / field.place() % field.size() * field.place()),
        None => 0,
    }
}

impl Row {
    /// Whether a word is the base plus what its fields add.
    #[tactic(auto, unfolding(crate::specs::Rows::begins))]
    fn begins(&self, word: u16) -> bool
        ensures { result ≡ begins self.now word }
    {
        u32::from(self.base) + part(self.first, word) + part(self.second, word) == u32::from(word)
    }
}

/// The row whose instructions begin with a word, if one does. The rows are in the order of their words, so each step leaves
/// half of them. (as(1), the handbook of the PDP-11/70)
#[tactic(auto, unfolding(crate::specs::Rows::row_of))]
pub fn row_of(word: u16) -> Option<Row>
    ensures { result ≡ row_of word }
{
    let mut left: &[Row] = &ROWS;
    while left.len() > 1 {
        let (front, back) = left.split_at(left.len() / 2);
        left = if back[0].base <= word { back } else { front };
    }
    match left {
        [row] if row.begins(word) => Some(*row),
        _ => None,
    }
}
