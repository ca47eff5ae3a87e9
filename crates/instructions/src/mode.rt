//! The modes and registers of general operands.
ghost use Rattle.std.specs.Prelude.{◌≡◌, ◌≤◌};
ghost use Rattle.instructions.specs.Modes.{mode_numbered, mode_number, register_numbered, register_number, has_word, addressing, counts_from_pc};

/// How an operand is found by its register, in the order of the modes' numbers. (the handbook of the PDP-11/70)
#[derive(Clone, Copy, Debug, PartialEq, Eq)]
pub enum Mode {
    /// 0: the register, `r0`.
    Direct,
    /// 1: at the address in the register, `(r0)`.
    Deferred,
    /// 2: the same, and then the register is incremented, `(r0)+`; of the pc the operand word itself, `$5`.
    Increment,
    /// 3: the address of the operand is found as by 2, `*(r0)+`; of the pc it is the operand word, `*$5`.
    IncrementDeferred,
    /// 4: the register is decremented, and then as by 1, `-(r0)`.
    Decrement,
    /// 5: the address of the operand is found as by 4, `*-(r0)`.
    DecrementDeferred,
    /// 6: at the sum of the register and the operand word, `2(r0)`; of the pc an address, `10`.
    Index,
    /// 7: the address of the operand is found as by 6, `*2(r0)` and `*10`.
    IndexDeferred,
}

/// How an operand uses its operand word. (the handbook of the PDP-11/70)
#[derive(Clone, Copy, Debug, PartialEq, Eq)]
pub enum Addressing {
    /// Mode 27: the word is the operand.
    Immediate,
    /// Mode 37: the word is the address of the operand.
    Absolute,
    /// Mode 67: the address of the operand is the sum of the word and the address after it.
    Relative,
    /// Mode 77: that sum is where the address of the operand is.
    RelativeDeferred,
    /// Modes 6 and 7 of another register: the word is added to the register.
    Indexed,
}

impl Addressing {
    /// Whether the machine adds the address after the operand word to it: modes 67 and 77. (the handbook of the PDP-11/70)
    pub fn counts_from_pc(self) -> bool
        ensures { result ≡ counts_from_pc self }
    {
        match self {
            Addressing::Relative | Addressing::RelativeDeferred => true,
            _ => false,
        }
    }
}

impl Mode {
    /// The mode of a number; mode 7 for those above. (the handbook of the PDP-11/70)
    pub fn numbered(number: u16) -> Mode
        ensures { result ≡ mode_numbered number }
    {
        match number {
            0 => Mode::Direct,
            1 => Mode::Deferred,
            2 => Mode::Increment,
            3 => Mode::IncrementDeferred,
            4 => Mode::Decrement,
            5 => Mode::DecrementDeferred,
            6 => Mode::Index,
            _ => Mode::IndexDeferred,
        }
    }

    /// The number of the mode, 0 to 7. (the handbook of the PDP-11/70)
    pub fn number(self) -> u16
        ensures value { result ≡ mode_number self }
        ensures small { result ≤ 7 }
    {
        match self {
            Mode::Direct => 0,
            Mode::Deferred => 1,
            Mode::Increment => 2,
            Mode::IncrementDeferred => 3,
            Mode::Decrement => 4,
            Mode::DecrementDeferred => 5,
            Mode::Index => 6,
            Mode::IndexDeferred => 7,
        }
    }

    /// Whether an operand of this mode has an operand word: modes 6 and 7, and 2 and 3 of the pc. (the handbook of the
    /// PDP-11/70)
    pub fn has_word(self, register: Register) -> bool
        ensures { result ≡ has_word self register }
    {
        match self {
            Mode::Index | Mode::IndexDeferred => true,
            Mode::Increment | Mode::IncrementDeferred => match register {
                Register::Pc => true,
                _ => false,
            },
            _ => false,
        }
    }

    /// How an operand of this mode uses its operand word, if it has one. (the handbook of the PDP-11/70)
    pub fn addressing(self, register: Register) -> Option<Addressing>
        ensures { result ≡ addressing self register }
    {
        match (self, register) {
            (Mode::Index, Register::Pc) => Some(Addressing::Relative),
            (Mode::IndexDeferred, Register::Pc) => Some(Addressing::RelativeDeferred),
            (Mode::Index | Mode::IndexDeferred, _) => Some(Addressing::Indexed),
            (Mode::Increment, Register::Pc) => Some(Addressing::Immediate),
            (Mode::IncrementDeferred, Register::Pc) => Some(Addressing::Absolute),
            _ => None,
        }
    }
}

/// A register, in the order of the numbers: 6 is the stack pointer, and 7 the program counter. (the handbook of the PDP-11/70)
#[derive(Clone, Copy, Debug, PartialEq, Eq)]
pub enum Register {
    R0,
    R1,
    R2,
    R3,
    R4,
    R5,
    Sp,
    Pc,
}

impl Register {
    /// The register of a number; the pc for those above 7. (the handbook of the PDP-11/70)
    pub fn numbered(number: u16) -> Register
        ensures { result ≡ register_numbered number }
    {
        match number {
            0 => Register::R0,
            1 => Register::R1,
            2 => Register::R2,
            3 => Register::R3,
            4 => Register::R4,
            5 => Register::R5,
            6 => Register::Sp,
            _ => Register::Pc,
        }
    }

    /// The number of the register, 0 to 7. (the handbook of the PDP-11/70)
    pub fn number(self) -> u16
        ensures value { result ≡ register_number self }
        ensures small { result ≤ 7 }
    {
        match self {
            Register::R0 => 0,
            Register::R1 => 1,
            Register::R2 => 2,
            Register::R3 => 3,
            Register::R4 => 4,
            Register::R5 => 5,
            Register::Sp => 6,
            Register::Pc => 7,
        }
    }
}
