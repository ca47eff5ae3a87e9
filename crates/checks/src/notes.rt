//! Notes on a file, a line each. Only tested: what they say.

use std::alloc::{AllocError, Global};
use std::fmt::Display;
use texts::Text;

/// Notes while they are collected. Once memory runs out they are cut, and `whole` returns the error.
#[derive(Drop)]
pub struct Notes {
    list: Vec<Vec<u8>>,
    refused: Option<AllocError>,
}

impl Notes {
    /// None yet.
    pub fn new(alloc: Global) -> Notes {
        Notes {
            list: Vec::new(alloc),
            refused: None,
        }
    }

    /// The text of a note that begins: a blank. The slash of its line is not there yet.
    pub fn begin(&self) -> Text {
        let mut text = Text::new(*self.list.allocator());
        text.put(" ");
        text
    }

    /// Adds a note, which `begin` began.
    pub fn add(&mut self, note: Text) {
        let line = match note.finish() {
            Ok(line) => line,
            Err(error) => {
                self.refused = Some(error);
                return;
            }
        };
        if let Err(error) = self.list.push(line) {
            self.refused = Some(AllocError::from(error));
        }
    }

    /// Adds a note.
    pub fn say<D: Display + Drop>(&mut self, note: D) {
        let mut text = self.begin();
        text.say(note);
        self.add(text);
    }

    /// An error if they are cut: out of memory.
    pub fn whole(&self) -> Result<(), AllocError> {
        match self.refused {
            Some(error) => Err(error),
            None => Ok(()),
        }
    }

    /// The notes so far.
    pub fn lines(&self) -> &[Vec<u8>] {
        &self.list
    }
}
