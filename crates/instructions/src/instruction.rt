//! Instructions, as their first words have them.
ghost use Rattle.std.specs.Prelude.{◌≡◌, ◌≤◌, ◌*◌};
ghost use Rattle.instructions.specs.Instructions.{field_operand, instruction, instruction_of, added, first_word, word_count_of, following_words};
ghost use Rattle.instructions.specs.Operands.{takes_word, is_missing};

use crate::field::Field;
use crate::operand::Operand;
use crate::row::row_of;
use crate::table::Row;

/// An instruction without its operand words: what its first word says. The operands are in the order of the text, and
/// those of the fields of the row. (as(1), the handbook of the PDP-11/70)
#[derive(Clone, Copy, Debug, PartialEq, Eq)]
pub struct Instruction {
    pub row: Row,
    pub first: Option<Operand>,
    pub second: Option<Operand>,
}

fn field_operand(field: Option<Field>, word: u16) -> Option<Operand>
    ensures { result ≡ field_operand field word }
{
    match field {
        Some(field) => Some(Operand::from_field(field, word / field.place() % field.size())),
        None => None,
    }
}

/// Whether an operand is fr6 or fr7.
fn is_missing(operand: Option<Operand>) -> bool
    ensures { result ≡ is_missing operand }
{
    match operand {
        Some(operand) => operand.is_missing(),
        None => false,
    }
}

/// How many operand words an operand has: 1 or 0.
pub(crate) fn word_count_of(operand: Option<Operand>) -> usize
    ensures value { result ≡ word_count_of operand }
    ensures small { result ≤ 1 }
{
    match operand {
        Some(operand) if operand.takes_word() => 1,
        _ => 0,
    }
}

/// What an operand adds to the base.
fn added(field: Option<Field>, operand: Option<Operand>) -> u32
    ensures value { result ≡ added field operand }
    ensures small { result ≤ 0o100 * 0o177777 }
{
    match (field, operand) {
        (Some(field), Some(operand)) => u32::from(operand.value()) * u32::from(field.place()),
        _ => 0,
    }
}

impl Instruction {
    /// The instruction that a word begins; `None` for a word that is plain whatever follows it: it is in no row, or has fr6
    /// or fr7. (as(1), the handbook of the PDP-11/70)
    pub fn from_first_word(word: u16) -> Option<Instruction>
        ensures { result ≡ instruction_of word }
    {
        let row = row_of(word)?;
        let first = field_operand(row.first, word);
        let second = field_operand(row.second, word);
        if is_missing(first) || is_missing(second) {
            return None;
        }
        Some(Instruction { row, first, second })
    }

    /// The first word, if it is one: an operand whose value does not fit its field could make it larger than a word. (the
    /// handbook of the PDP-11/70)
    pub fn first_word(&self) -> u16
        requires { first_word self.now ≤ 0o177777 }
        ensures { result ≡ first_word self.now }
    {
        let first = added(self.row.first, self.first);
        let second = added(self.row.second, self.second);
        (u32::from(self.row.base) + first + second) as u16
    }

    /// How many operand words precede that of the second operand, 0 or 1. (the handbook of the PDP-11/70)
    pub fn words_before_second(&self) -> usize
        ensures value { result ≡ word_count_of self.now.first }
        ensures small { result ≤ 1 }
    {
        word_count_of(self.first)
    }

    /// How many operand words follow the first word, 0 to 2. (the handbook of the PDP-11/70)
    pub fn following_words(&self) -> usize
        ensures value { result ≡ following_words self.now }
        ensures small { result ≤ 2 }
    {
        word_count_of(self.first) + word_count_of(self.second)
    }
}
