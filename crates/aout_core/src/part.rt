//! The parts of a file that have words.

/// A part of a file that has words. (a.out(5))
#[derive(Clone, Copy, Debug, PartialEq, Eq)]
pub enum Part {
    Text,
    Data,
}
