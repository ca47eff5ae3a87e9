//! The words of a file, each with its address and its relocation word.
ghost use Rattle.std.specs.Prelude.{◌≡◌, ◌^◌, ◌<◌, length};
ghost use Rattle.aout_core.specs.Placed.{place_of, placed_word, relocs_of, start_of, words_of};

use crate::file::File;
use crate::part::Part;
use crate::reloc::Reloc;

/// A word of a file: its number in its part, from 0, its address in memory, and the bytes of the file at which the word and its
/// relocation word begin. It has no relocation word if the header's flag is not 0. (a.out(5))
#[derive(Clone, Copy, Debug)]
pub struct PlacedWord {
    pub part: Part,
    pub number: usize,
    pub address: u16,
    pub place: usize,
    pub reloc_place: usize,
    pub word: u16,
    pub reloc: Option<Reloc>,
}

impl File {
    /// The words of a part. (a.out(5))
    pub fn words_of(&self, part: Part) -> &[u16]
        ensures value { result.now ≡ words_of self.now part }
        ensures short { length result.now < 2 ^ 15 }
    {
        match part {
            Part::Text => self.text_words(),
            Part::Data => self.data_words(),
        }
    }

    /// The relocation words of a part. (a.out(5))
    pub fn relocs_of(&self, part: Part) -> &[Reloc]
        ensures value { result.now ≡ relocs_of self.now part }
        ensures short { length result.now < 2 ^ 15 }
    {
        match part {
            Part::Text => self.text_reloc(),
            Part::Data => self.data_reloc(),
        }
    }

    /// The address in memory at which a part begins, and its byte in the file.
    fn starts_of(&self, part: Part) -> (usize, usize)
        ensures address { result.0 ≡ start_of self.now.header part }
        ensures place { result.1 ≡ place_of self.now.header part }
        ensures small { result.0 < 2 ^ 17 }
        ensures short { result.1 < 2 ^ 17 }
    {
        match part {
            Part::Text => (0, 16),
            Part::Data => (
                self.header().data_start(),
                16 + self.header().text_size as usize,
            ),
        }
    }

    /// The word of a part with this number. (a.out(5))
    pub fn placed_word(&self, part: Part, number: usize) -> PlacedWord
        requires { number < length (words_of self.now part) }
        ensures { result ≡ placed_word self.now part number }
    {
        let (words, header) = (self.words_of(part), self.header());
        let (start, begin) = self.starts_of(part);
        let place = begin + 2 * number;
        PlacedWord {
            part,
            number,
            address: ((start + 2 * number) % 65536) as u16,
            place,
            reloc_place: place + (header.text_size as usize + header.data_size as usize),
            word: words[number],
            reloc: self.relocs_of(part).get(number).copied(),
        }
    }
}
