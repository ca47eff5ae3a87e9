//! A file whose symbols are found by their values.
ghost use Rattle.std.specs.Prelude.{◌≡◌, IfOk};

use crate::names::Names;
use aout_core::{File, Symbol};
use std::alloc::{AllocError, Global};
use std::marker::Model;

/// For each word of memory, and for the one after the last, whether a symbol has its value there. An error: out of memory.
fn marked(alloc: Global, symbols: &[Symbol]) -> Result<Vec<bool>, AllocError> {
    let mut marks = vec![in alloc; false; 32769]?;
    for symbol in symbols {
        if let Some(mark) = marks.get_mut(usize::from(symbol.value / 2)) {
            *mark = true;
        }
    }
    Ok(marks)
}

/// A file whose symbols are found by their values, so that the cost of a line does not grow with their number. Make it once for
/// all lines of a text.
#[derive(Drop)]
pub struct NamedFile<'a> {
    file: &'a File,
    names: Names<'a>,
    /// For each word of memory, whether a symbol has its value there.
    marks: Vec<bool>,
}

impl<'a> Model for NamedFile<'a> {
    ghost use Rattle.std.specs.Prelude.{◌≡◌};
    ghost use Rattle.aout_core.specs.Contents.{Contents};

    ghost Value = { Contents };

    ghost view = { λ n. n.file.now };

    ghost invariant = { λ n. n.names.symbols.now ≡ n.file.now.symbols };
}

impl<'a> NamedFile<'a> {
    /// A file, after each of its symbols has been put in its place: the time grows with their number times its logarithm, and
    /// about 24 bytes are kept for each, and 32 KB for all. An error: out of memory.
    pub fn new(alloc: Global, file: &'a File) -> Result<NamedFile<'a>, AllocError>
        ensures { IfOk result (λ n. n ≡ file.now) }
    {
        Ok(NamedFile {
            file,
            names: Names::new(alloc, file.symbols())?,
            marks: marked(alloc, file.symbols())?,
        })
    }

    /// The file.
    pub fn file(&self) -> &'a File
        ensures { result.now ≡ self.now }
    {
        self.file
    }

    /// Its symbols by their segments and values.
    pub fn names(&self) -> &Names<'a>
        ensures { result.now.symbols.now ≡ self.now.symbols }
    {
        &self.names
    }

    /// Whether no symbol has a value among so many words from an address on, or in the word after them.
    pub(crate) fn is_bare(&self, address: u16, length: u16) -> bool {
        let first = usize::from(address / 2);
        let end = first + usize::from(length);
        match self.marks.get(first..end + 1) {
            Some(marks) => marks.iter().all(|mark| !*mark),
            None => false,
        }
    }
}
