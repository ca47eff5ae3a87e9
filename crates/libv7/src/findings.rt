//! The report of a link, as a list.
ghost use Rattle.std.specs.Prelude.{◌≡◌, option_to_list, IfOk};
ghost use Rattle.link_out.specs.Outcomes.{report_names};
ghost use Rattle.libv7.specs.LinkAnswers.{all_findings, of_kind, reported_names};

use aout_core::Name;
use link_maps::padded;
use link_out::Report;
use std::alloc::{AllocError, Global};

/// A name of a report, and why it is reported. (ld(1); the numbers: own choice)
#[repr(C)]
#[derive(Clone, Copy, Debug, PartialEq, Eq)]
pub struct ReportedName {
    /// The name, filled up with NULs.
    pub name: [u8; 8],
    /// 1 if it is multiply defined, 2 if it is `_etext`, `_edata` or `_end` and an object defines it or makes it a common, 3
    /// if it is the entry point and not in text, 4 if it is undefined.
    pub kind: u32,
}

/// Names of a report, each with its kind.
pub(crate) type Reported = Vec<(u32, Name)>;

fn of_kind(alloc: Global, kind: u32, names: &[Name]) -> Result<Reported, AllocError>
    ensures { IfOk result (λ found. found.items ≡ of_kind kind names.now) }
{
    names.iter().map(|name| (kind, *name)).collect(alloc)
}

/// The name of an entry point that is not in text.
fn entry_reported(alloc: Global, entry: &Option<Name>) -> Result<Reported, AllocError>
    ensures { IfOk result (λ found. found.items ≡ of_kind 3 (option_to_list entry.now)) }
{
    match entry {
        Some(name) => of_kind(alloc, 3, &[*name]),
        None => Ok(Vec::new(alloc)),
    }
}

/// The names of a report, in the order of its lines.
pub(crate) fn reported_names(alloc: Global, report: &Report) -> Result<Reported, AllocError>
    ensures { IfOk result (λ found. found.items ≡ reported_names (report_names report.now)) }
{
    let mut found = of_kind(alloc, 1, &report.multiples)?;
    found.extend_from_slice(&of_kind(alloc, 2, &report.reserved)?)?;
    found.extend_from_slice(&entry_reported(alloc, &report.entry_bad)?)?;
    found.extend_from_slice(&of_kind(alloc, 4, &report.undefined)?)?;
    Ok(found)
}

/// What is reported of a link, in the order of its lines.
pub(crate) fn all_findings(alloc: Global, report: &Report) -> Result<Vec<ReportedName>, AllocError>
    ensures { IfOk result (λ found. found.items ≡ all_findings (report_names report.now)) }
{
    reported_names(alloc, report)?
        .iter()
        .map(|(kind, name)| ReportedName {
            name: padded(name),
            kind: *kind,
        })
        .collect(alloc)
}
