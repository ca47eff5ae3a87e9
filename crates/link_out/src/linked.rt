//! What a link gives.
ghost use Rattle.std.specs.{Prelude.{◌≡◌, ◌++◌}, List.flat_map};
ghost use Rattle.aout_core.specs.{Refusals.refused, Wires.Writes};
ghost use Rattle.link_out.specs.{function.Reports.{report_text, status_of, entry_lines, undefined_lines}, Outcomes.report_names};
ghost use Rattle.link_out.specs.{internal.ReportParts.{is_silent, multiple_lines}, declared.linked.LinkFault.TheVariants.Memory};

use aout_core::{DeviceFault, File, Name, Refused, Wire};
use std::alloc::AllocError;
use std::io::Write;
use thiserror::Error;

/// A file and what is reported of it. (ld(1))
#[derive(Debug, Drop)]
pub struct Linked {
    /// The linked file.
    pub file: File,
    /// What is reported of it.
    pub report: Report,
}

/// What is reported of a link. Its lines are in the order of the fields. (ld(1))
#[derive(Debug, Drop)]
pub struct Report {
    /// A name for each symbol whose definition of it differs from the first.
    pub multiples: Vec<Name>,
    /// Those of `_etext`, `_edata` and `_end` that the objects define, or make commons.
    pub reserved: Vec<Name>,
    /// The name of the entry point, if it is not in text.
    pub entry_bad: Option<Name>,
    /// The names that nothing defines, but for commons and those three; none if relocation is kept.
    pub undefined: Vec<Name>,
}

/// Why there is no file. They are tested in this order.
#[derive(Clone, Copy, Debug, PartialEq, Eq, Error)]
#[error("{}", self.text())]
pub enum LinkFault {
    /// 1: the end of bss would pass 65,535.
    DoesNotFit,
    /// 2: more than 5,461 symbols would be written.
    TooManySymbols,
    /// 3: a relocation word would need a symbol number over 4,095.
    SymbolNumber,
    /// 4: memory ran out for the file or the report.
    Memory(Refused),
}

impl LinkFault {
    ghost use Rattle.std.specs.Prelude.{◌≡◌};
    ghost use Rattle.link_out.specs.FaultTexts.{link_text};

    /// What is said of the link.
    pub fn text(self) -> &'static str
        ensures { result.now ≡ link_text self }
    {
        match self {
            LinkFault::DoesNotFit => "does not fit",
            LinkFault::TooManySymbols => "too many symbols",
            LinkFault::SymbolNumber => "symbol number too large",
            LinkFault::Memory(_) => "no memory",
        }
    }
}

impl From<AllocError> for LinkFault {
    ghost from_gives = { λ _ fault. fault ≡ Memory refused };

    fn from(error: AllocError) -> LinkFault {
        LinkFault::Memory(Refused::from(error))
    }
}

/// Writes a line for each name: the name, then `text`, which ends the line.
fn put_names<W: Write>(names: &[Name], text: &[u8], out: &mut Wire<W>) -> Result<(), DeviceFault>
    ensures { Writes W.contents result out.old out.new (flat_map (λ n. n ++ text.now) names.now) }
{
    out.working()?;
    for name in names {
        out.put_both(name.as_bytes(), text)?;
    }
    Ok(())
}

impl Report {
    /// The status that a program ends with: 0 if there is nothing to report, else 1.
    pub fn status(&self) -> u8
        ensures { result ≡ status_of (report_names self.now) }
    {
        if self.is_silent() { 0 } else { 1 }
    }

    /// Whether there is nothing to report.
    fn is_silent(&self) -> bool
        ensures { result ≡ is_silent (report_names self.now) }
    {
        self.multiples.is_empty()
            && self.reserved.is_empty()
            && self.entry_bad.is_none()
            && self.undefined.is_empty()
    }

    /// Writes the report: a line `NAME: Multiply defined` for each of `multiples` and `reserved`, the line
    /// `NAME: Entry point not in text`, and the line `Undefined:` with the undefined names below it, one a line.
    /// On a fault a prefix of this went out.
    pub fn write<W: Write>(&self, out: &mut Wire<W>) -> Result<(), DeviceFault>
        ensures { Writes W.contents result out.old out.new (report_text (report_names self.now)) }
    {
        self.write_multiples(out)?;
        self.write_entry_and_undefined(out)
    }

    /// Writes a line for each name that is multiply defined or reserved.
    fn write_multiples<W: Write>(&self, out: &mut Wire<W>) -> Result<(), DeviceFault>
        ensures { Writes W.contents result out.old out.new
            (multiple_lines (self.now.multiples.items ++ self.now.reserved.items)) }
    {
        put_names(&self.multiples, b": Multiply defined\n", out)?;
        put_names(&self.reserved, b": Multiply defined\n", out)
    }

    /// Writes the line of the entry point and the undefined names.
    fn write_entry_and_undefined<W: Write>(&self, out: &mut Wire<W>) -> Result<(), DeviceFault>
        ensures { Writes W.contents result out.old out.new
            (entry_lines self.now.entry_bad ++ undefined_lines self.now.undefined.items) }
    {
        self.write_entry(out)?;
        self.write_undefined(out)
    }

    /// Writes the line of the entry point, if there is one.
    fn write_entry<W: Write>(&self, out: &mut Wire<W>) -> Result<(), DeviceFault>
        ensures { Writes W.contents result out.old out.new (entry_lines self.now.entry_bad) }
    {
        let Some(name) = self.entry_bad else {
            return out.put(b"");
        };
        out.put_both(name.as_bytes(), b": Entry point not in text\n")
    }

    /// Writes the undefined names, if there are any.
    fn write_undefined<W: Write>(&self, out: &mut Wire<W>) -> Result<(), DeviceFault>
        ensures { Writes W.contents result out.old out.new
            (undefined_lines self.now.undefined.items) }
    {
        let names = self.undefined.as_slice();
        if names.is_empty() {
            return out.put(b"");
        }
        out.put(b"Undefined:\n")?;
        put_names(names, b"\n", out)
    }
}
