//! Lines: each is an instruction with its operand words, or a plain word.
ghost use Rattle.std.specs.Prelude.{◌≡◌, ◌≤◌, ◌<◌, ◌+◌, length};
ghost use Rattle.instructions.specs.{Operands.takes_word, Instructions.word_count_of};
ghost use Rattle.instructions.specs.Lines.{line_at, line_length, words_of, start_of, listed, word_for};

use crate::instruction::{Instruction, word_count_of};
use crate::operand::Operand;

/// A line of text. (as(1); which words are plain: own choice)
#[derive(Clone, Copy, Debug, PartialEq, Eq)]
pub enum Line {
    /// A word that begins no instruction, or one that the words end before.
    Plain(u16),
    /// An instruction, and the operand words of its first and its second operand.
    Decoded(Instruction, Option<u16>, Option<u16>),
}

/// The words of a line, one to three.
#[derive(Clone, Copy, Debug, PartialEq, Eq)]
pub enum Words {
    One([u16; 1]),
    Two([u16; 2]),
    Three([u16; 3]),
}

impl Words {
    /// The words in order.
    pub fn as_slice(&self) -> &[u16]
        ensures { result.now ≡ listed self.now }
    {
        match self {
            Words::One(words) => words,
            Words::Two(words) => words,
            Words::Three(words) => words,
        }
    }
}

/// The operand word of an operand, if it has one, at a place among those that follow the first word.
fn word_for(operand: Option<Operand>, place: usize, words: &[u16]) -> Option<u16>
    ensures { result ≡ word_for operand place words.now }
{
    match operand {
        Some(operand) if operand.takes_word() => words.get(place).copied(),
        _ => None,
    }
}

/// The line that begins at a place of these words. A word is plain if it is in no row of the table, if it has fr6 or fr7, or
/// if the words end before its instruction does. (as(1), the handbook of the PDP-11/70; plain words: own choice)
pub fn decode(words: &[u16], place: usize) -> Line
    requires { place < length words.now }
    ensures line { result ≡ line_at words.now place }
    ensures fits { place + line_length result ≤ length words.now }
{
    let first = words[place];
    let rest = &words[place + 1..];
    match Instruction::from_first_word(first) {
        Some(instruction) if instruction.following_words() <= rest.len() => {
            let word = word_for(instruction.first, 0, rest);
            let other = word_for(instruction.second, word_count_of(instruction.first), rest);
            Line::Decoded(instruction, word, other)
        }
        _ => Line::Plain(first),
    }
}

/// The words of a line. The first word has to be one: that of a decoded line is. (as(1), the handbook of the PDP-11/70)
pub fn encode(line: &Line) -> Words
    requires { start_of line.now ≤ 0o177777 }
    ensures { listed result ≡ words_of line.now }
{
    match line {
        Line::Plain(word) => Words::One([*word]),
        Line::Decoded(instruction, word, other) => {
            let first = instruction.first_word();
            match (*word, *other) {
                (None, None) => Words::One([first]),
                (Some(word), None) | (None, Some(word)) => Words::Two([first, word]),
                (Some(word), Some(other)) => Words::Three([first, word, other]),
            }
        }
    }
}

impl Line {
    /// How many words it has, 1 to 3. (the handbook of the PDP-11/70)
    pub fn length(&self) -> usize
        ensures { result ≡ line_length self.now }
    {
        match self {
            Line::Plain(_) => 1,
            Line::Decoded(instruction, _, _) => 1 + instruction.following_words(),
        }
    }
}
