//! Why arguments are refused. Only tested: the words.
use std::fmt::{self, Display, Formatter, Write};
use texts::Printable;

/// Why arguments are refused.
#[derive(Clone, Copy, Debug, PartialEq, Eq)]
pub enum Reason {
    /// There is no option of this letter.
    NoOption(u8),
    /// Options have one letter, but for `--help` and `--version`.
    NoLongOption,
    /// The option of this letter has no value: the next argument, if it does not begin with a hyphen.
    NoValue(u8),
    /// The option of this letter is given twice, and takes one value.
    SecondValue(u8),
    /// The value of the option of this letter is not a number from 1 on.
    NotANumber(u8),
    /// The options of these letters exclude each other.
    Excluded(u8, u8),
    /// The option of the first letter is given without that of the second.
    Needs(u8, u8),
    /// The option of this letter is not the first argument.
    NotFirst(u8),
    /// The arguments after the option of this letter are not those of `ld`.
    NotOfLd(u8),
    /// There is no file.
    NoFile,
    /// There is not just one file, with the option of this letter.
    NotOneFile(u8),
    /// There are not just two files.
    NotTwoFiles,
}

/// The letter of an option, after a hyphen.
#[derive(Clone, Copy)]
struct Letter(u8);

impl Display for Letter {
    fn fmt<W: Write>(&self, f: &mut Formatter<W>) -> fmt::Result {
        write!(f, "-{}", Printable(&[self.0]))
    }
}

impl Display for Reason {
    fn fmt<W: Write>(&self, f: &mut Formatter<W>) -> fmt::Result {
        match *self {
            Reason::NoOption(letter) => write!(f, "there is no option {}", Letter(letter)),
            Reason::NoLongOption => {
                f.write_str("an option has one letter, but for --help and --version")
            }
            Reason::NoValue(letter) => {
                write!(f, "{} needs the next argument as its value", Letter(letter))
            }
            Reason::SecondValue(letter) => write!(f, "{} takes one value", Letter(letter)),
            Reason::NotANumber(letter) => write!(f, "{} needs a number from 1 on", Letter(letter)),
            Reason::Excluded(one, other) => {
                write!(
                    f,
                    "{} and {} exclude each other",
                    Letter(one),
                    Letter(other)
                )
            }
            Reason::Needs(one, other) => write!(f, "{} needs {}", Letter(one), Letter(other)),
            Reason::NotFirst(letter) => {
                write!(f, "{} has to be the first argument", Letter(letter))
            }
            Reason::NotOfLd(letter) => {
                write!(f, "ld does not take the arguments after {}", Letter(letter))
            }
            Reason::NoFile => f.write_str("it needs a file"),
            Reason::NotOneFile(letter) => write!(f, "{} is for one file", Letter(letter)),
            Reason::NotTwoFiles => f.write_str("it takes two files"),
        }
    }
}
