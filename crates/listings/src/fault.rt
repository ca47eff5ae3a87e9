//! Why a listing was not read, and where.
ghost use Rattle.std.specs.Prelude.{◌≡◌};
ghost use Rattle.aout_core.specs.Refusals.{refused};
ghost use Rattle.listings.specs.declared.fault.RowFault.TheVariants.{Memory};

use aout_core::Refused;
use std::alloc::{AllocError, AllocFailed};
use thiserror::Error;

/// The part of a listing that a line belongs to.
#[derive(Clone, Copy, Debug, PartialEq, Eq)]
pub(crate) enum Section {
    InHeader,
    InText,
    InData,
    InSymbols,
    Ended,
}

/// A word that a line begins with.
#[derive(Clone, Copy, Debug, PartialEq, Eq)]
pub(crate) enum Word {
    Text,
    Data,
    Symbols,
    Bss,
    Entry,
    Unused,
    Magic,
    Flag,
    End,
    Unknown,
}

/// Why a line of a listing is wrong.
#[derive(Clone, Copy, Debug, PartialEq, Eq, Error)]
pub enum Reason {
    /// The line has no such column.
    #[error("a column is missing")]
    Missing,
    /// A byte of the number is not an octal digit.
    #[error("not an octal number")]
    NotOctal,
    /// The number is over 177777.
    #[error("over 177777")]
    TooLarge,
    /// A byte of the name does not print, a backslash is not followed by three octal digits up to 377, or a byte follows a NUL.
    #[error("bad byte in a name")]
    BadName,
    /// The address is not that of the next word of the section, which is this one.
    #[error("the address does not follow: {0:06o} is next")]
    WrongAddress(u16),
    /// The number is not that of the next symbol, which is this one.
    #[error("the number does not follow: {0:o} is next")]
    WrongNumber(u16),
    /// The section has 32,767 words already.
    #[error("more than 32767 words")]
    TooManyWords,
    /// The table has 5,461 symbols already.
    #[error("more than 5461 symbols")]
    TooManySymbols,
    /// A number comes before the first section.
    #[error("text, data or symbols is missing")]
    NoSection,
    /// No line begins with this word.
    #[error("unknown word")]
    UnknownWord,
    /// Text comes before data and data before symbols, and each comes once.
    #[error("text, data and symbols are not in this order")]
    OutOfOrder,
    /// The magic number or the flag comes after the first section.
    #[error("magic and flag come before text, data and symbols")]
    TooLate,
    /// A word comes after the symbols.
    #[error("only symbols can follow symbols")]
    AfterTable,
    /// No file has this magic number.
    #[error("bad magic number")]
    NoMagic,
    /// The size of bss is odd.
    #[error("odd size")]
    OddSize,
    /// The name has more than 8 bytes.
    #[error("more than 8 bytes in a name")]
    LongName,
    /// A number is where a remark on a word begins.
    #[error("one number too many")]
    ExtraNumber,
    /// A byte below 040, other than a tab, a newline, and a carriage return before one.
    #[error("a control character")]
    StrayByte,
    /// After `end` there is another line than a comment.
    #[error("only comments can follow end")]
    AfterEnd,
    /// The listing has the head that `v7-explain` writes, and not its last line.
    #[error("the line end is missing: the listing was cut")]
    NoEnd,
}

/// A mistake of a listing. Lines are counted from 1, and so are columns, in bytes.
#[derive(Clone, Copy, Debug, PartialEq, Eq)]
pub struct Fault {
    pub line: usize,
    pub column: usize,
    pub reason: Reason,
}

/// The mistakes of a listing by their lines: the first, and at most nine others.
#[derive(Debug, Drop)]
pub struct Mistakes {
    pub first: Fault,
    pub others: Vec<Fault>,
}

/// Why a listing was not read.
#[derive(Debug, Drop)]
pub enum ListingFault {
    /// Memory ran out for the file or for its mistakes.
    Memory(Refused),
    /// It has mistakes.
    Wrong(Mistakes),
}

/// Why a row was not read.
#[derive(Clone, Copy, Debug, PartialEq, Eq)]
pub(crate) enum RowFault {
    Memory(Refused),
    /// The number of the column, from 0.
    Wrong(usize, Reason),
}

impl From<AllocError> for RowFault {
    ghost from_gives = { λ _ fault. fault ≡ Memory refused };

    fn from(error: AllocError) -> RowFault {
        RowFault::Memory(Refused::from(error))
    }
}

impl<T: Drop> From<AllocFailed<T>> for RowFault {
    ghost from_gives = { λ _ fault. fault ≡ Memory refused };

    fn from(error: AllocFailed<T>) -> RowFault {
        RowFault::Memory(Refused::from(error))
    }
}
