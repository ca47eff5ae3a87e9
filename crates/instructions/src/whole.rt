//! The lines of a whole text.
ghost use Rattle.std.specs.{Prelude.{◌≡◌, ◌<◌}, Iterator.{YieldsFirst, item_count}};
ghost use Rattle.instructions.specs.Lines.{lines};

use crate::line::{Line, decode};

/// The lines of a list of words, one after the other from its first word on. (as(1))
#[derive(Clone, Copy, Debug)]
pub struct Lines<'a> {
    words: &'a [u16],
}

impl<'a> Lines<'a> {
    /// The lines of these words.
    pub fn new(words: &'a [u16]) -> Lines<'a>
        ensures { result.words.now ≡ words.now }
    {
        Lines { words }
    }
}

impl<'a> Iterator for Lines<'a> {
    type Item = Line;

    ghost next_gives = { YieldsFirst (λ s. lines s.words.now) };

    ghost remaining = { item_count (λ s. lines s.words.now) };

    fn next(&mut self) -> Option<Line> {
        if self.words.is_empty() {
            return None;
        }
        let line = decode(self.words, 0);
        self.words = &self.words[line.length()..];
        Some(line)
    }
}
