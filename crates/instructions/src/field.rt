//! The fields of a first word.
ghost use Rattle.std.specs.Prelude.{◌≡◌};
ghost use Rattle.instructions.specs.Fields.{place, size};

/// A field of a first word: the bits that it takes, and what they say. (the handbook of the PDP-11/70)
#[derive(Clone, Copy, Debug, PartialEq, Eq)]
pub enum Field {
    /// Bits 11 to 6: a general operand, its mode in the upper three bits and its register in the lower three.
    Source,
    /// Bits 5 to 0: a general operand.
    Destination,
    /// Bits 5 to 0: a floating operand, in mode 0 an accumulator, in any other mode as a general one.
    Floating,
    /// Bits 8 to 6: a register.
    Register,
    /// Bits 2 to 0: a register.
    LowRegister,
    /// Bits 7 to 6: an accumulator, 0 to 3.
    Accumulator,
    /// Bits 7 to 0: an offset in words to the target of a branch, signed.
    Forward,
    /// Bits 5 to 0: an offset in words backwards, to the target of `sob`.
    Backward,
    /// Bits 8 to 0: a number.
    NineBits,
    /// Bits 7 to 0: a number.
    Byte,
    /// Bits 5 to 0: a number.
    SixBits,
    /// Bits 2 to 0: a number.
    ThreeBits,
}

impl Field {
    /// The value of its lowest bit: 0100 for bit 6, or 1. (the handbook of the PDP-11/70)
    pub fn place(self) -> u16
        ensures { result ≡ place self }
    {
        match self {
            Field::Source | Field::Register | Field::Accumulator => 0o100,
            _ => 1,
        }
    }

    /// How many values it has: 2 to the number of its bits. (the handbook of the PDP-11/70)
    pub fn size(self) -> u16
        ensures { result ≡ size self }
    {
        match self {
            Field::Source | Field::Destination | Field::Floating => 0o100,
            Field::Backward | Field::SixBits => 0o100,
            Field::Register | Field::LowRegister | Field::ThreeBits => 0o10,
            Field::Accumulator => 4,
            Field::Forward | Field::Byte => 0o400,
            Field::NineBits => 0o1000,
        }
    }
}
