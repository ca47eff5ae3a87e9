//! Operands, as the first word has them.
ghost use Rattle.std.specs.Prelude.{◌≡◌, ◌≤◌};
ghost use Rattle.instructions.specs.Operands.{general, operand_of, value_of, takes_word, is_missing};

use crate::field::Field;
use crate::mode::{Mode, Register};

/// An operand, as the first word has it, without its operand word. (the handbook of the PDP-11/70)
#[derive(Clone, Copy, Debug, PartialEq, Eq)]
pub enum Operand {
    General(Mode, Register),
    /// A floating accumulator, `fr0` to `fr5`.
    Accumulator(u16),
    Register(Register),
    /// The offset of a branch in words, from 0200 on negative: 0377 is -1.
    Forward(u16),
    /// The offset of `sob` in words, backwards.
    Backward(u16),
    /// A number of the instruction itself, as of `sys`.
    Number(u16),
}

/// The general operand of six bits.
fn general(value: u16) -> Operand
    ensures { result ≡ general value }
{
    Operand::General(Mode::numbered(value / 8), Register::numbered(value % 8))
}

impl Operand {
    /// The operand that a value says in a field. (the handbook of the PDP-11/70)
    pub fn from_field(field: Field, value: u16) -> Operand
        ensures { result ≡ operand_of field value }
    {
        match field {
            Field::Source | Field::Destination => general(value),
            Field::Floating if value < 8 => Operand::Accumulator(value),
            Field::Floating => general(value),
            Field::Register | Field::LowRegister => Operand::Register(Register::numbered(value)),
            Field::Accumulator => Operand::Accumulator(value),
            Field::Forward => Operand::Forward(value),
            Field::Backward => Operand::Backward(value),
            Field::NineBits | Field::Byte | Field::SixBits | Field::ThreeBits => {
                Operand::Number(value)
            }
        }
    }

    /// The value that says it in its field. (the handbook of the PDP-11/70)
    pub fn value(self) -> u16
        ensures { result ≡ value_of self }
    {
        match self {
            Operand::General(mode, register) => mode.number() * 8 + register.number(),
            Operand::Register(register) => register.number(),
            Operand::Accumulator(value) => value,
            Operand::Forward(value) => value,
            Operand::Backward(value) => value,
            Operand::Number(value) => value,
        }
    }

    /// Whether it has an operand word. (the handbook of the PDP-11/70)
    pub fn takes_word(self) -> bool
        ensures { result ≡ takes_word (Some self) }
    {
        match self {
            Operand::General(mode, register) => mode.has_word(register),
            _ => false,
        }
    }

    /// Whether it is an accumulator that there is not, fr6 or fr7: a word that has one is plain. (the handbook of the
    /// PDP-11/70)
    pub fn is_missing(self) -> bool
        ensures { result ≡ is_missing (Some self) }
    {
        match self {
            Operand::Accumulator(value) => value >= 6,
            _ => false,
        }
    }
}
