//! The faults of the program, and their lines.
ghost use Rattle.std.specs.Prelude.{◌≡◌, ◌++◌, codes, Some};
ghost use Rattle.aout_core.specs.{Wires.Writes, Refusals.{device_fault, refused}};
ghost use Rattle.v7tools.specs.{Calls.fault_of_words, declared.fault.CliFault.TheVariants.{Memory, WriteFailed}};
ghost use Rattle.v7tools.specs.FaultTexts.{cli_text, fault_line, fault_of_addition, fault_of_link, fault_of_tool};
ghost use Rattle.v7tools.specs.internal.FaultParts.{text_of};

pub(crate) mod wording;

use crate::fault::wording::{FaultText, addition_text, file_text, object_text, says, says_of};
use aout_core::{DeviceFault, ObjectFault, ReadFault, Refused, Wire};
use command_words::WordsFault;
use link_out::LinkFault;
use link_session::{AddFault, AddRefused};
use std::alloc::{AllocError, AllocFailed};
use std::error::Error;
use std::fmt;
use std::fmt::{Display, Formatter};
use std::io::Write;
use symtools::ToolFault;

/// Why a command failed. If memory runs out it is `Memory`, whatever was being done.
#[derive(Debug, Drop)]
pub enum CliFault {
    /// 1: the words ask for nothing that there is.
    Usage,
    /// 2: the file at this path can't be opened: there is none, it may not be read, or too many are open.
    CannotOpen(String),
    /// 3: the file at this path is not an a.out file, or its device failed.
    BadFile(String, ReadFault),
    /// 4: the file at this path is not an object.
    BadObject(String, ObjectFault),
    /// 5: the object at this path does not fit after those before it.
    NotAdded(String, AddFault),
    /// 6: the objects can't be linked.
    NotLinked(LinkFault),
    /// 7: no file can be made at this path.
    CannotCreate(String),
    /// 8: a device failed while it was written.
    WriteFailed(DeviceFault),
    /// 9: memory ran out.
    Memory(Refused),
    /// 11: a line of a script has more than 4,096 bytes.
    LongLine,
    /// 12: a script has more than 1,000,000 lines.
    ManyLines,
    /// 13: a script cannot be read on.
    ScriptFailed,
}

impl From<DeviceFault> for CliFault {
    ghost from_gives = { λ _ fault. fault ≡ WriteFailed device_fault };

    fn from(fault: DeviceFault) -> CliFault {
        CliFault::WriteFailed(fault)
    }
}

impl From<WordsFault> for CliFault {
    ghost from_gives = { λ words fault. fault ≡ fault_of_words words };

    fn from(fault: WordsFault) -> CliFault {
        match fault {
            WordsFault::Usage => CliFault::Usage,
            WordsFault::Memory(refused) => CliFault::Memory(refused),
        }
    }
}

impl From<AllocError> for CliFault {
    ghost from_gives = { λ _ fault. fault ≡ Memory refused };

    fn from(error: AllocError) -> CliFault {
        CliFault::Memory(Refused::from(error))
    }
}

impl From<Refused> for CliFault {
    ghost from_gives = { λ _ fault. fault ≡ Memory refused };

    fn from(refused: Refused) -> CliFault {
        CliFault::Memory(refused)
    }
}

impl From<AddRefused> for CliFault {
    ghost from_gives = { λ refused fault. fault ≡ fault_of_addition refused.label refused.cause };

    fn from(refused: AddRefused) -> CliFault {
        match refused.cause {
            AddFault::Memory(refused) => CliFault::Memory(refused),
            AddFault::TextFull | AddFault::DataFull | AddFault::BssFull | AddFault::NamesFull => {
                CliFault::NotAdded(refused.label, refused.cause)
            }
        }
    }
}

impl From<ToolFault> for CliFault {
    ghost from_gives = { λ fault e. e ≡ fault_of_tool fault };

    fn from(fault: ToolFault) -> CliFault {
        match fault {
            ToolFault::Memory(refused) => CliFault::Memory(refused),
            ToolFault::Device(fault) => CliFault::WriteFailed(fault),
        }
    }
}

impl<T: Drop> From<AllocFailed<T>> for CliFault {
    ghost from_gives = { λ _ fault. fault ≡ Memory refused };

    fn from(error: AllocFailed<T>) -> CliFault {
        CliFault::Memory(Refused::from(error))
    }
}

impl From<LinkFault> for CliFault {
    ghost from_gives = { λ cause fault. fault ≡ fault_of_link cause };

    fn from(cause: LinkFault) -> CliFault {
        match cause {
            LinkFault::Memory(refused) => CliFault::Memory(refused),
            LinkFault::DoesNotFit | LinkFault::TooManySymbols | LinkFault::SymbolNumber => {
                CliFault::NotLinked(cause)
            }
        }
    }
}

impl CliFault {
    /// Writes the fault's line: `v7: `, the text of the fault, and a newline. It takes no memory. On a fault of the
    /// device a prefix of the line went out.
    pub fn write<W: Write>(&self, out: &mut Wire<W>) -> Result<(), DeviceFault>
        ensures { Writes W.contents result out.old out.new (fault_line self.now) }
    {
        self.write_named(out)?;
        out.put(b"\n")
    }

    /// Writes the program's name and the text of the fault.
    fn write_named<W: Write>(&self, out: &mut Wire<W>) -> Result<(), DeviceFault>
        ensures { Writes W.contents result out.old out.new (codes "v7: " ++ cli_text self.now) }
    {
        out.put(b"v7: ")?;
        self.write_text(out)
    }

    pub(crate) fn write_text<W: Write>(&self, out: &mut Wire<W>) -> Result<(), DeviceFault>
        ensures { Writes W.contents result out.old out.new (cli_text self.now) }
    {
        self.text().write(out)
    }

    fn text(&self) -> FaultText<'_>
        ensures { text_of result ≡ cli_text self.now }
    {
        match self {
            CliFault::Usage => says("usage"),
            CliFault::CannotOpen(path) => says_of(path.as_str(), "cannot open"),
            CliFault::BadFile(path, fault) => file_text(path.as_str(), *fault),
            CliFault::BadObject(path, fault) => object_text(path.as_str(), *fault),
            CliFault::NotAdded(path, fault) => addition_text(path.as_str(), *fault),
            CliFault::NotLinked(fault) => says(fault.text()),
            CliFault::CannotCreate(path) => says_of(path.as_str(), "cannot create"),
            CliFault::WriteFailed(_) => says("write error"),
            CliFault::Memory(_) => says("no memory"),
            CliFault::LongLine => says("line too long"),
            CliFault::ManyLines => says("too many lines"),
            CliFault::ScriptFailed => says("script read error"),
        }
    }
}

impl Display for CliFault {
    ghost output = { λ fault. Some (cli_text fault) };

    fn fmt<W: fmt::Write>(&self, f: &mut Formatter<W>) -> fmt::Result {
        let text = self.text();
        if let Some(path) = text.path {
            write!(f, "{path}: ")?;
        }
        f.write_str(text.words)?;
        if let Some(index) = text.index {
            write!(f, "{index}")?;
        }
        Ok(())
    }
}

impl Error for CliFault {}
