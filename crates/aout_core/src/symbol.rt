//! Symbols.
ghost use Rattle.std.specs.Prelude.{◌≡◌, ◌<◌, ◌≤◌, eqb};
ghost use Rattle.aout_core.specs.WellFormed.{is_external, is_undefined, masked_type, segment_number, segment_of};

use crate::name::Name;

/// A symbol of the symbol table, 12 bytes long. (a.out(5))
#[derive(Clone, Copy, Debug, PartialEq, Eq)]
pub struct Symbol {
    pub name: Name,
    /// The type word: 0 to 4 are undefined, absolute, text, data and bss, 024 a register, 037 a file name; 040 is
    /// added for an external.
    pub type_bits: u16,
    /// An address, or the number of an absolute or a register; for an undefined external the size of a common in
    /// bytes, or 0.
    pub value: u16,
}

/// Where a symbol is defined, by its type word. (a.out(5))
#[derive(Clone, Copy, Debug, PartialEq, Eq)]
pub enum Segment {
    Undefined,
    Absolute,
    TextSeg,
    DataSeg,
    BssSeg,
    Other,
}

impl Segment {
    /// The number in the type word, without the external bit: 0 to 4 in the order of `Segment`, and 037, a file name's,
    /// for `Other`. (a.out(5))
    pub fn number(self) -> u16
        ensures value { result ≡ segment_number self }
        ensures small { result ≤ 31 }
    {
        match self {
            Segment::Undefined => 0,
            Segment::Absolute => 1,
            Segment::TextSeg => 2,
            Segment::DataSeg => 3,
            Segment::BssSeg => 4,
            Segment::Other => 0o37,
        }
    }
}

impl Symbol {
    /// Whether other files see the name: bit 040 of the type word. (a.out(5))
    pub fn is_external(&self) -> bool
        ensures { result ≡ is_external self.now }
    {
        self.type_bits / 0o40 % 2 == 1
    }

    /// Whether the symbol is external and of type 0, so that another file has to define the name, or it is a common.
    /// (a.out(5))
    pub fn is_undefined(&self) -> bool
        ensures { result ≡ is_undefined self.now }
    {
        self.is_external() && self.segment() == Segment::Undefined
    }

    /// The low five bits of the type word, without the external bit. (a.out(5))
    pub fn masked_type(&self) -> u16
        ensures value { result ≡ masked_type self.now }
        ensures small { result < 32 }
    {
        self.type_bits % 0o40
    }

    /// Whether the low five bits of the type word are those of a segment. (a.out(5))
    pub fn is_of(&self, segment: Segment) -> bool
        ensures { result ≡ eqb (masked_type self.now) (segment_number segment) }
    {
        self.masked_type() == segment.number()
    }

    /// The segment by the type word masked with 037: 0 to 4 in the order of `Segment`, any other `Other`. (a.out(5))
    pub fn segment(&self) -> Segment
        ensures { result ≡ segment_of self.now }
    {
        match self.masked_type() {
            0 => Segment::Undefined,
            1 => Segment::Absolute,
            2 => Segment::TextSeg,
            3 => Segment::DataSeg,
            4 => Segment::BssSeg,
            _ => Segment::Other,
        }
    }
}
