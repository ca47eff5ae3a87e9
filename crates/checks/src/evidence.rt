//! Evidence that a place is reached.
ghost use Rattle.checks.specs.internal.Marks.{ShowReached};

use disassemblies::Sweep;

/// What shows that a place of a text is reached. docs/OBJECTS.md has the rules.
#[derive(Clone, Copy, Debug, PartialEq, Eq)]
pub enum Evidence {
    /// The symbols of text, and operand words that count from the pc and are relocated so, which no data has. It may be data.
    Names,
    /// Control is sure to come there, from the entry of a linked file, or from a function that begins as the Seventh Edition's C compiler
    /// begins each. After a branch or a call it is not sure.
    Flow,
    /// The caller promises that all of the text is instructions. So one begins at the beginning of the text, at each symbol of text, and
    /// after each other one.
    Promise,
}

/// A file, and for each word of its text whether an evidence shows that it is reached.
#[derive(Clone, Copy)]
pub(crate) struct Reached<'a> {
    pub(crate) evidence: Evidence,
    pub(crate) sweep: &'a Sweep<'a>,
    pub(crate) marks: &'a [bool],
    ghost shown: { ShowReached marks.now evidence sweep.now },
}
