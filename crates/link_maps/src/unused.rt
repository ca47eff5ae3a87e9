//! Which names of a link are unused.
ghost use Rattle.std.specs.{Prelude.{◌≡◌}, List.list_any};
ghost use Rattle.link_maps.specs.Unused.{is_entry, is_mention, is_unused};

use crate::map::LinkMap;
use crate::name_records::name_in;
use crate::names::is_any_definition;
use crate::uses::Use;
use aout_core::Symbol;
use link_session::Session;

/// Whether an object uses a name: one that defines it does so by the words that lead to it, or may reach what it names.
pub fn is_mention(used: &Use) -> bool
    ensures { result ≡ is_mention used.now }
{
    !used.is_definition() || !used.references.is_empty() || !used.near.is_empty()
}

fn is_any_mention(uses: &[Use]) -> bool
    ensures { result ≡ list_any is_mention uses.now }
{
    uses.iter().any(|used| is_mention(used))
}

/// Whether a symbol is one of text at an address.
fn is_entry(address: u16, symbol: &Symbol) -> bool
    ensures { result ≡ is_entry address symbol.now }
{
    symbol.masked_type() == 2 && symbol.value == address
}

impl LinkMap {
    /// Whether a link of a session is made in which an object defines the name of these uses and nothing uses it: no other symbol wants it,
    /// no word leads to it or may reach what it names, and it is not at the entry point.
    pub fn is_unused(&self, session: &Session, uses: &[Use]) -> bool
        ensures { result ≡ is_unused self.now.outcome session.now uses.now }
    {
        let (Some(linked), Some(row)) = (self.linked(), self.row(session, &name_in(uses))) else {
            return false;
        };
        let entry_point = linked.file.header().entry_point;
        is_any_definition(uses) && !is_any_mention(uses) && !is_entry(entry_point, &row)
    }
}
