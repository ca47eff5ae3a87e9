//! Why an object in GNU's form is refused.
ghost use Rattle.std.specs.Prelude.{◌≡◌};
ghost use Rattle.aout_core.specs.Refusals.{refused};
ghost use Rattle.gnu_objects.specs.declared.refusal.Refusal.TheVariants.{Memory};

use aout_core::{ObjectFault, Refused};
use std::alloc::{AllocError, AllocFailed};
use thiserror::Error;

/// A size in the header.
#[derive(Clone, Copy, Debug, PartialEq, Eq, Error)]
pub enum Size {
    #[error("text")]
    TextSize,
    #[error("data")]
    DataSize,
    #[error("bss")]
    BssSize,
    #[error("the symbol table")]
    SymbolSize,
}

/// Why an object in GNU's form is refused. Symbols are counted from 0, and so are words, first those of text and then
/// those of data.
#[derive(Clone, Copy, Debug, PartialEq, Eq, Error)]
pub enum Refusal {
    /// 1: fewer than 16 bytes.
    #[error("short header")]
    ShortHeader,
    /// 2: the first word is this one, and not 0407.
    #[error("magic number {0:06o} and not 000407")]
    BadMagic(u16),
    /// 3: an odd size of text, data or bss, or a size of the symbol table that 8 does not divide.
    #[error("odd size of {0}")]
    OddSize(Size),
    /// 4: fewer bytes than the header or the length of the strings announces.
    #[error("truncated")]
    Truncated,
    /// 5: the strings have a length under 4.
    #[error("the strings have a length under 4")]
    BadStrings,
    /// 6: this symbol belongs to an overlay.
    #[error("symbol {0} belongs to an overlay")]
    Overlay(u16),
    /// 7: the name of this symbol is at a place where the strings have none.
    #[error("symbol {0} has its name at no place of the strings")]
    BadPlace(u16),
    /// 8: this symbol is for a debugger, and such are not to be dropped.
    #[error("symbol {0} is for a debugger, and -S drops such")]
    Stab(u16),
    /// 9: this symbol has a description, and is not for a debugger.
    #[error("symbol {0} has a description, and is not for a debugger")]
    Description(u16),
    /// 10: there is no relocation, and this entry point: the file is a linked program.
    #[error("entry point {0:06o} and no relocation: this is a linked program")]
    Linked(u16),
    /// 11: so many symbols stay, over 5,461.
    #[error("{0} symbols stay, and a table has 5461 at most")]
    TooManySymbols(u16),
    /// 12: the names of these two externals differ, and are equal in eight bytes.
    #[error("symbols {0} and {1} have names that are equal in eight bytes")]
    AlikeNames(u16, u16),
    /// 13: this word refers to a symbol for a debugger.
    #[error("word {0} refers to a symbol for a debugger")]
    StabWord(u16),
    /// 14: this word refers to this local, which does not stay.
    #[error("word {0} refers to a local that is dropped")]
    LocalWord(u16, u16),
    /// 15: a word that an object may not have.
    #[error("{0}")]
    BadWord(ObjectFault),
    /// 16: memory runs out for what is converted.
    #[error("no memory")]
    Memory(Refused),
}

impl From<AllocError> for Refusal {
    ghost from_gives = { λ _ refusal. refusal ≡ Memory refused };

    fn from(error: AllocError) -> Refusal {
        Refusal::Memory(Refused::from(error))
    }
}

impl<T: Drop> From<AllocFailed<T>> for Refusal {
    ghost from_gives = { λ _ refusal. refusal ≡ Memory refused };

    fn from(error: AllocFailed<T>) -> Refusal {
        Refusal::Memory(Refused::from(error))
    }
}
