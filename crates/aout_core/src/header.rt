//! The header of a file.
ghost use Rattle.std.specs.Prelude.{◌≡◌, ◌+◌, ◌<◌, ◌≤◌};
ghost use Rattle.aout_core.specs.{Addresses.data_start_in, Contents.with_relocation, Encoding.{file_length, header_encoding}};
ghost use Rattle.aout_core.specs.Decoding.{header_in};

use crate::address::data_start;
use crate::word::{put_words, take_words};

/// The eight words that a file begins with. Sizes are in bytes and do not count the header. (a.out(5))
#[derive(Clone, Copy, Debug, PartialEq, Eq)]
pub struct Header {
    /// 0407 normal, 0410 with read-only text, 0411 with separated I and D space, 0405 an overlay.
    pub magic: u16,
    /// The size of the text, even.
    pub text_size: u16,
    /// The size of the initialized data, even.
    pub data_size: u16,
    /// The size of the data that begins as zeros, even.
    pub bss_size: u16,
    /// The size of the symbol table, 12 bytes for each symbol.
    pub symbol_size: u16,
    /// The address at which the program starts.
    pub entry_point: u16,
    /// A word without a meaning.
    pub unused: u16,
    /// 0 if relocation words are present; any other word says that they were stripped.
    pub flag: u16,
}

impl Header {
    /// The header that 16 bytes encode. Any words are allowed here. (a.out(5))
    pub fn read(bytes: &[u8; 16]) -> Header
        ensures { result ≡ header_in bytes.now }
    {
        let mut words = [0; 8];
        take_words(bytes, &mut words);
        let [
            magic,
            text_size,
            data_size,
            bss_size,
            symbol_size,
            entry_point,
            unused,
            flag,
        ] = words;
        Header {
            magic,
            text_size,
            data_size,
            bss_size,
            symbol_size,
            entry_point,
            unused,
            flag,
        }
    }

    /// The address at which data begins: after text, with magic 0410 at the next multiple of 020000, and with 0411 at 0.
    /// (a.out(5))
    pub fn data_start(&self) -> usize
        ensures value { result ≡ data_start_in self.now }
        ensures bound { result < 131072 }
    {
        data_start(self.magic, self.text_size as usize)
    }

    /// How many bytes of relocation there are for so many bytes of a segment.
    pub(crate) fn with_relocation(&self, size: u16) -> u16
        ensures value { result ≡ with_relocation self.now size }
        ensures bound { result ≤ size }
    {
        if self.flag == 0 { size } else { 0 }
    }

    /// How many bytes of a file follow its header.
    pub(crate) fn body_size(&self) -> usize
        ensures { 16 + result ≡ file_length self.now }
    {
        let segments = self.text_size as usize + self.data_size as usize;
        let text_reloc = self.with_relocation(self.text_size) as usize;
        let data_reloc = self.with_relocation(self.data_size) as usize;
        segments + text_reloc + data_reloc + self.symbol_size as usize
    }

    /// The 16 bytes that encode the header. (a.out(5))
    pub fn to_bytes(&self) -> [u8; 16]
        ensures { result ≡ header_encoding self.now }
    {
        let words = [
            self.magic,
            self.text_size,
            self.data_size,
            self.bss_size,
            self.symbol_size,
            self.entry_point,
            self.unused,
            self.flag,
        ];
        let mut bytes = [0; 16];
        put_words(&words, &mut bytes);
        bytes
    }
}
