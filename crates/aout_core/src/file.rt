//! A file in memory.
ghost use Rattle.std.specs.Prelude.{◌≡◌, ◌↔◌, ◌*◌, IsTrue};
ghost use Rattle.aout_core.specs.{Contents.{is_magic, has_whole_sizes}, declared.file.ReadFault.TheVariants.{Memory, Device}};
ghost use Rattle.aout_core.specs.Refusals.{device_fault, refused};

use crate::header::Header;
use crate::refused::Refused;
use crate::reloc::Reloc;
use crate::symbol::Symbol;
use crate::wire::DeviceFault;
use std::alloc::AllocError;
use std::marker::Model;
use thiserror::Error;

/// The parts of a file, in their order; the relocation of text and of data has one word for each of their words, or
/// none. (a.out(5))
#[derive(Debug, Drop)]
pub struct Parts {
    pub header: Header,
    pub text_words: Vec<u16>,
    pub data_words: Vec<u16>,
    pub text_reloc: Vec<Reloc>,
    pub data_reloc: Vec<Reloc>,
    pub symbols: Vec<Symbol>,
}

/// A file: parts that fit their header. Contracts see it as its header and lists. (a.out(5))
#[derive(Debug, Drop)]
pub struct File {
    parts: Parts,
}

impl Model for File {
    ghost use Rattle.aout_core.specs.Contents.{Contents};

    ghost Value = { Contents };

    ghost use Rattle.aout_core.specs.{Parts.contents_of, Contents.{Fits, AreWords}};

    ghost view = { λ a. contents_of a.parts };

    ghost invariant = { λ a. Fits (contents_of a.parts) × AreWords a.parts.header };
}

/// Whether a file may begin with this word: 0405, 0407, 0410 or 0411. (a.out(5))
pub fn is_magic(magic: u16) -> bool
    ensures { result ≡ is_magic magic }
{
    magic == 0o405 || magic == 0o407 || magic == 0o410 || magic == 0o411
}

/// Whether text, data and bss have even sizes, and the symbol table one that 12 divides. (a.out(5))
pub fn has_whole_sizes(header: &Header) -> bool
    ensures { result ≡ has_whole_sizes header.now }
{
    header.text_size % 2 == 0
        && header.data_size % 2 == 0
        && header.bss_size % 2 == 0
        && header.symbol_size % 12 == 0
}

/// Whether so many words have this size in bytes.
fn words_fit(len: usize, size: u16) -> bool
    ensures { IsTrue result ↔ (2 * len ≡ size) }
{
    size % 2 == 0 && len == size as usize / 2
}

impl Parts {
    ghost use Rattle.std.specs.Prelude.{◌≡◌, ◌↔◌, ◌*◌, IsTrue, length};
    ghost use Rattle.aout_core.specs.{Parts.contents_of, Contents.{Fits, with_relocation}};

    /// Whether the parts make a file: the magic is one of the four, the sizes are whole, and each list is as long as
    /// the header says; without relocation the lists of relocation words are empty. (a.out(5); whole sizes: own
    /// choice)
    pub fn fits(&self) -> bool
        ensures { IsTrue result ↔ Fits (contents_of self.now) }
    {
        is_magic(self.header.magic) && has_whole_sizes(&self.header) && self.lists_fit()
    }

    fn lists_fit(&self) -> bool
        ensures text { IsTrue result
            → 2 * length self.now.text_words.items ≡ self.now.header.text_size }
        ensures datas { IsTrue result
            → 2 * length self.now.data_words.items ≡ self.now.header.data_size }
        ensures first { IsTrue result → 2 * length self.now.text_reloc.items
            ≡ with_relocation self.now.header self.now.header.text_size }
        ensures second { IsTrue result → 2 * length self.now.data_reloc.items
            ≡ with_relocation self.now.header self.now.header.data_size }
        ensures table { IsTrue result
            → 12 * length self.now.symbols.items ≡ self.now.header.symbol_size }
        ensures all { Fits (contents_of self.now) → IsTrue result }
    {
        let header = &self.header;
        let text_reloc = header.with_relocation(header.text_size);
        let data_reloc = header.with_relocation(header.data_size);
        words_fit(self.text_words.len(), header.text_size)
            && words_fit(self.data_words.len(), header.data_size)
            && words_fit(self.text_reloc.len(), text_reloc)
            && words_fit(self.data_reloc.len(), data_reloc)
            && header.symbol_size % 12 == 0
            && self.symbols.len() == header.symbol_size as usize / 12
    }
}

impl File {
    ghost use Rattle.std.specs.Prelude.{◌≡◌, ◌*◌, ◌^◌, ◌<◌, length};
    ghost use Rattle.aout_core.specs.{Parts.contents_of, Contents.Fits};

    /// The file of these parts, which have to fit: `Parts::fits` checks that. (a.out(5))
    pub fn from_parts(parts: Parts) -> File
        requires { Fits (contents_of parts) }
        ensures { result ≡ contents_of parts }
    {
        File { parts }
    }

    /// The header. The lists are as long as it says. (a.out(5))
    pub fn header(&self) -> &Header
        ensures value { result.now ≡ self.now.header }
        ensures fits { Fits self.now }
    {
        &self.parts.header
    }

    /// The words of the text. (a.out(5))
    pub fn text_words(&self) -> &[u16]
        ensures value { result.now ≡ self.now.text_words }
        ensures short { 2 * length result.now < 2 ^ 16 }
    {
        &self.parts.text_words
    }

    /// The words of the data. (a.out(5))
    pub fn data_words(&self) -> &[u16]
        ensures value { result.now ≡ self.now.data_words }
        ensures short { 2 * length result.now < 2 ^ 16 }
    {
        &self.parts.data_words
    }

    /// The relocation words of the text; none if the header's flag is not 0. (a.out(5))
    pub fn text_reloc(&self) -> &[Reloc]
        ensures value { result.now ≡ self.now.text_reloc }
        ensures short { 2 * length result.now < 2 ^ 16 }
    {
        &self.parts.text_reloc
    }

    /// The relocation words of the data; none if the header's flag is not 0. (a.out(5))
    pub fn data_reloc(&self) -> &[Reloc]
        ensures value { result.now ≡ self.now.data_reloc }
        ensures short { 2 * length result.now < 2 ^ 16 }
    {
        &self.parts.data_reloc
    }

    /// The symbol table, in its order. (a.out(5))
    pub fn symbols(&self) -> &[Symbol]
        ensures value { result.now ≡ self.now.symbols }
        ensures short { 12 * length result.now < 2 ^ 16 }
    {
        &self.parts.symbols
    }

    /// The parts back. (a.out(5))
    pub fn into_parts(self) -> Parts
        ensures value { contents_of result ≡ self }
        ensures fits { Fits (contents_of result) }
    {
        let File { parts } = self;
        parts
    }
}

/// Why no file was read.
#[derive(Clone, Copy, Debug, PartialEq, Eq, Error)]
#[error("{}", self.text())]
pub enum ReadFault {
    /// 1: fewer than 16 bytes.
    ShortHeader,
    /// 2: the first word is none of 0405, 0407, 0410 and 0411.
    BadMagic,
    /// 3: an odd size of text, data or bss, or a size of the symbol table that 12 does not divide.
    OddSize,
    /// 4: memory runs out for what the header announces.
    Memory(Refused),
    /// 5: fewer bytes than the header announces.
    Truncated,
    /// 6: the device failed, in this call or before it.
    Device(DeviceFault),
}

impl ReadFault {
    ghost use Rattle.std.specs.Prelude.{◌≡◌};
    ghost use Rattle.aout_core.specs.FaultTexts.{read_text};

    /// What is said of the file.
    pub fn text(self) -> &'static str
        ensures { result.now ≡ read_text self }
    {
        match self {
            ReadFault::ShortHeader => "short header",
            ReadFault::BadMagic => "bad magic number",
            ReadFault::OddSize => "odd size",
            ReadFault::Memory(_) => "no memory",
            ReadFault::Truncated => "truncated",
            ReadFault::Device(_) => "read error",
        }
    }
}

impl From<DeviceFault> for ReadFault {
    ghost from_gives = { λ _ fault. fault ≡ Device device_fault };

    fn from(fault: DeviceFault) -> ReadFault {
        ReadFault::Device(fault)
    }
}

impl From<AllocError> for ReadFault {
    ghost from_gives = { λ _ fault. fault ≡ Memory refused };

    fn from(error: AllocError) -> ReadFault {
        ReadFault::Memory(Refused::from(error))
    }
}
