//! Which symbols a link keeps.
ghost use Rattle.std.specs.Prelude.{◌≡◌, ◌+◌, ◌↔◌, length, nat_lt, IfSome, IsNone, IsTrue};
ghost use Rattle.link_session.specs.Labelled.{objects};
ghost use Rattle.link_out.specs.{KeptSymbols.{begins_with_l, keeps, is_kept_local}, internal.Planned.{table_in, locals_in}};
ghost use Rattle.link_out.specs.internal.Rows.{count_in, kept_count};

use crate::plan::Plan;
use aout_core::{Name, Symbol};
use link_session::Entry;
use tool_options::Keep;

/// The most symbols of a table: one more, of 12 bytes each, would not fit the size in the header.
pub const MOST_ROWS: usize = 5461;

fn begins_with_l(name: &[u8]) -> bool
    ensures { result ≡ begins_with_l name.now }
{
    match name {
        [] => false,
        [first, ..] => *first == b'L',
    }
}

/// Whether a local of this name is kept.
fn keeps(keep: Keep, name: &Name) -> bool
    ensures { result ≡ keeps keep name.now }
{
    match keep {
        Keep::All => true,
        Keep::NotL => !begins_with_l(name.as_bytes()),
        Keep::Externals | Keep::Nothing => false,
    }
}

pub(crate) fn is_kept_local(keep: Keep, symbol: &Symbol) -> bool
    ensures { result ≡ is_kept_local keep symbol.now }
{
    !symbol.is_external() && keeps(keep, &symbol.name)
}

/// How many of the symbols are locals that are kept. If all locals are, their names are not read.
#[tactic(auto, using(crate::proofs::RowLemmas::all_kept))]
fn count_kept(keep: Keep, symbols: &[Symbol]) -> usize
    ensures { result ≡ count_in keep symbols.now }
{
    if keep == Keep::All {
        return symbols
            .iter()
            .filter(|symbol| !symbol.is_external())
            .count();
    }
    symbols
        .iter()
        .filter(|symbol| is_kept_local(keep, symbol))
        .count()
}

/// How many locals of the objects are kept; `None` if these and the externals are too many for a table.
fn count_locals(entries: &[Entry], keep: Keep, externals: u16) -> Option<u16>
    ensures many { IsNone result
        ↔ IsTrue (nat_lt 5461 (kept_count keep (objects entries.now) + externals)) }
    ensures count { IfSome result (λ n. n ≡ kept_count keep (objects entries.now)) }
{
    let mut count = 0;
    for entry in entries {
        if MOST_ROWS < count {
            return None;
        }
        count += count_kept(keep, entry.object().file().symbols());
    }
    if MOST_ROWS < count || MOST_ROWS < count + externals as usize {
        return None;
    }
    Some(count as u16)
}

/// How many locals the table of a link has; `None` if the table would have more than 5,461 rows.
pub(crate) fn locals_within(plan: &Plan<'_>) -> Option<u16>
    ensures many { IsNone result ↔ IsTrue (nat_lt 5461 (length (table_in plan.now))) }
    ensures count { IfSome result (λ n. n ≡ length (locals_in plan.now)) }
{
    if plan.keep == Keep::Nothing {
        return Some(0);
    }
    count_locals(plan.entries, plan.keep, plan.session.external_count())
}
