//! The driver of the linker: `finish` makes a file of what a session keeps, one pass a line.
//!
//! `Session::add` of `link_session` did the rest before, object by object: it merged the segments and resolved the names. So
//! an undefined or a multiply defined name is not an error here. It is reported, and the file is made all the same.
ghost use Rattle.std.specs.Prelude.{◌≡◌, ◌≤◌, true, length, IfOk, IfErr, Ok, Err};
ghost use Rattle.aout_core.specs.WellFormed.{IsWellFormed};
ghost use Rattle.link_out.specs.{function.Link.{link_of, linked_file}, internal.Passes.IsPassed};
ghost use Rattle.link_out.specs.internal.Planned.{plan_in, objects_in, table_in, locals_in, link_in, AreWords, AreRelocs};
ghost use Rattle.link_out.specs.Outcomes.{IsLinkOf};
ghost use Rattle.link_out.specs.internal.FromCells as from_cells;

use crate::finals::{Final, finals_of};
use crate::kept_symbols::locals_within;
use crate::linked::{LinkFault, Linked};
use crate::plan::Plan;
use crate::relocs::{Relocs, relocs_of};
use crate::report::{entry_point, report_of};
use crate::symbol_numbers::has_number_too_large;
use crate::table::table;
use crate::words::{Words, words_of};
use aout_core::{File, Parts, Symbol};
use link_session::Session;
use std::alloc::Global;
use tool_options::Options;

/// The most that the end of bss may be. It is the address after the last byte of bss and the value of `_end`, so it has to
/// fit a word.
pub const LAST_ADDRESS: u64 = 65_535;

/// The link of the objects that a session keeps: the file, and what is reported of it. If the options keep relocation
/// (`-r`), the file is an object, which can be linked again. The session is only read. (ld(1) and a.out(5); the limits
/// are an own choice)
///
/// Errors, the first that applies: `DoesNotFit`, 1, if the end of bss would exceed 65,535; `TooManySymbols`, 2,
/// if more than 5,461 symbols would be written; `SymbolNumber`, 3, if a relocation word would need the number of a symbol
/// over 4,095; `Memory`, 4, if memory runs out for file and report.
pub fn finish(alloc: Global, session: &Session, options: &Options) -> Result<Linked, LinkFault>
    ensures value { IsLinkOf result (link_of session.now options.now) }
    ensures object { options.now.relocatable ≡ true
        → IfOk result (λ linked. IsWellFormed linked.file) }
{
    // the layout: where each segment begins, with the commons before bss
    let plan = Plan::of(session, options);
    // first, so that no refusal depends on memory, and each address and number below fits its bits
    let locals = check_limits(&plan)?;
    // the address of each external, if it has one: of its definition, of its common, or of a reserved name such as `_end`
    let finals = finals_of(alloc, &plan)?;
    let words = words_of(alloc, &plan, &finals)?;
    // empty without `-r`; externals are numbered after the locals
    let relocs = relocs_of(alloc, &plan, &finals, locals)?;
    // the symbol table: the locals that are kept, then the externals
    let symbols = table(alloc, &plan, &finals, locals)?;
    // multiply defined, reserved and undefined names, and an entry name that is not in text
    let report = report_of(alloc, &plan, &finals)?;
    let file = file_of(&plan, &finals, words, relocs, symbols);
    Ok(Linked { file, report })
}

/// Refuses a link that exceeds a limit of the format, with the first fault. If none is exceeded, this gives how many locals
/// the table has; with `-r` that is also the number of the first external. This takes no memory.
fn check_limits(plan: &Plan<'_>) -> Result<u16, LinkFault>
    ensures passed { IfOk result (IsPassed (plan_in plan.now) (objects_in plan.now)) }
    ensures short { IfOk result (λ _. plan.now.bases.bss_end ≤ 65535) }
    ensures locals { IfOk result (λ n. n ≡ length (locals_in plan.now)) }
    ensures refused { IfErr result (λ fault. link_in plan.now ≡ Err fault) }
{
    if LAST_ADDRESS < plan.bases.bss_end {
        return Err(LinkFault::DoesNotFit);
    }
    let Some(locals) = locals_within(plan) else {
        return Err(LinkFault::TooManySymbols);
    };
    // a relocation word has 12 bits for the number of a symbol
    if plan.options.is_relocatable() && has_number_too_large(plan, locals) {
        return Err(LinkFault::SymbolNumber);
    }
    Ok(locals)
}

/// The file of these words, relocation words and symbols, with the header and its entry point.
fn file_of(
    plan: &Plan<'_>,
    finals: &[Final],
    words: Words,
    relocs: Relocs,
    symbols: Vec<Symbol>,
) -> File
    requires finals { finals.now ≡ from_cells.finals (plan_in plan.now) }
    requires short { plan.now.bases.bss_end ≤ 65535 }
    requires few { length (table_in plan.now) ≤ 5461 }
    requires words { AreWords plan.now words }
    requires relocs { AreRelocs plan.now relocs }
    requires symbols { symbols.items ≡ table_in plan.now }
    ensures { result ≡ linked_file (plan_in plan.now) (objects_in plan.now) }
{
    let Words {
        text_words,
        data_words,
    } = words;
    let Relocs {
        text_reloc,
        data_reloc,
    } = relocs;
    File::from_parts(Parts {
        header: plan.header(symbols.len(), entry_point(plan, finals).address),
        text_words,
        data_words,
        text_reloc,
        data_reloc,
        symbols,
    })
}
