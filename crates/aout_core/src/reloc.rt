//! Relocation words.
ghost use Rattle.std.specs.Prelude.{◌≡◌};
ghost use Rattle.aout_core.specs.{Addresses.target, WellFormed.{kind_of, is_pc_relative, symbol_number}};

use crate::address::pc_target;

/// A relocation word: what the word at its place refers to. (a.out(5))
#[derive(Clone, Copy, Debug, PartialEq, Eq)]
pub struct Reloc(pub u16);

/// What a word refers to, by bits 3 to 1 of its relocation word. (a.out(5))
#[derive(Clone, Copy, Debug, PartialEq, Eq)]
pub enum Kind {
    Absolute,
    TextSeg,
    DataSeg,
    BssSeg,
    External,
}

impl Reloc {
    /// What the word refers to: 00 absolute, 02 text, 04 data, 06 bss, 010 an undefined external; `None` for 012, 014
    /// and 016, which no kind has. (a.out(5))
    pub fn kind(&self) -> Option<Kind>
        ensures { result ≡ kind_of self.now }
    {
        match self.0 / 2 % 8 {
            0 => Some(Kind::Absolute),
            1 => Some(Kind::TextSeg),
            2 => Some(Kind::DataSeg),
            3 => Some(Kind::BssSeg),
            4 => Some(Kind::External),
            _ => None,
        }
    }

    /// Whether the word is relative to the pc: bit 0. (a.out(5))
    pub fn is_pc(&self) -> bool
        ensures { result ≡ is_pc_relative self.now }
    {
        self.0 & 1 == 1
    }

    /// The number of the symbol, bits 15 to 4. It has a meaning for an external alone. (a.out(5))
    pub fn number(&self) -> u16
        ensures { result ≡ symbol_number self.now }
    {
        self.0 >> 4
    }

    /// What a word at an address refers to: an address of its segment, a number, or what is added to an external. A word
    /// that is relative to the pc counts from the address after it. (a.out(5))
    pub fn target(&self, word: u16, address: u16) -> u16
        ensures { result ≡ target self.now word address }
    {
        if self.is_pc() {
            pc_target(word, address)
        } else {
            word
        }
    }
}
