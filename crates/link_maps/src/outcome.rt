//! What becomes of a link: its file and its report, or why it is refused; and the rows of its externals.
ghost use Rattle.std.specs.Prelude.{◌≡◌, ◌≢◌, Err, IfOk};
ghost use Rattle.aout_core.specs.Refusals.{refused};
ghost use Rattle.link_session.specs.Labelled.{objects};
ghost use Rattle.link_out.specs.{declared.linked.LinkFault.TheVariants.Memory, Outcomes.IsLinkOf, function.Link.link};
ghost use Rattle.link_maps.specs.Rows.{IsOutcome, row_at, number_in, largest_in, largest_number};

use aout_core::{File, Kind, Reloc, Symbol};
use link_out::{Bases, LinkFault, Linked, Options, finish, link_bases, link_externals};
use link_session::Session;
use std::alloc::{AllocError, Global};

/// What becomes of a link of the objects that a session keeps.
#[derive(Drop)]
pub struct Outcome {
    pub bases: Bases,
    /// The link, or why it is refused; lack of memory is not among the reasons.
    pub linked: Result<Linked, LinkFault>,
    /// The externals, by first mention, with their addresses; none if the link does not fit.
    pub externals: Option<Vec<Symbol>>,
}

/// The link of a session, or why it is refused. An error: out of memory.
fn link_of(
    alloc: Global,
    session: &Session,
    options: &Options,
) -> Result<Result<Linked, LinkFault>, AllocError>
    ensures link { IfOk result (λ linked.
        IsLinkOf linked (link session.now.forced (objects session.now.entries) options.now)) }
    ensures no_memory { IfOk result (λ linked. linked ≢ Err (Memory refused)) }
{
    match finish(alloc, session, options) {
        Ok(linked) => Ok(Ok(linked)),
        Err(LinkFault::Memory(refused)) => Err(AllocError::from(refused)),
        Err(fault) => Ok(Err(fault)),
    }
}

/// What becomes of the link of a session. An error: out of memory.
pub(crate) fn outcome_of(
    alloc: Global,
    session: &Session,
    options: &Options,
) -> Result<Outcome, AllocError>
    ensures { IfOk result (λ outcome. IsOutcome outcome session.now options.now) }
{
    let linked = link_of(alloc, session, options)?;
    let externals = link_externals(alloc, session, options)?;
    Ok(Outcome {
        bases: link_bases(session, options),
        linked,
        externals,
    })
}

pub(crate) fn row_at(rows: &[Symbol], index: Option<u16>) -> Option<Symbol>
    ensures { result ≡ row_at rows.now index }
{
    match index {
        Some(index) => rows.get(index as usize).copied(),
        None => None,
    }
}

/// The symbol number of a relocation word, or 0 if it refers to no symbol.
fn number_in(reloc: Reloc) -> u16
    ensures { result ≡ number_in reloc }
{
    match reloc.kind() {
        Some(Kind::External) => reloc.number(),
        _ => 0,
    }
}

fn largest_in(relocs: &[Reloc]) -> u16
    ensures { result ≡ largest_in relocs.now }
{
    let mut largest = 0u16;
    for reloc in relocs {
        largest = largest.max(number_in(*reloc));
    }
    largest
}

/// The largest symbol number of the relocation words of a file, or 0 if none refers to a symbol.
pub(crate) fn largest_number(file: &File) -> u16
    ensures { result ≡ largest_number file.now }
{
    largest_in(file.text_reloc()).max(largest_in(file.data_reloc()))
}
