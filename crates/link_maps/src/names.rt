//! What the uses of a name say of it.
ghost use Rattle.std.specs.{Prelude.{◌≡◌, position, slice_get}, List.list_any};
ghost use Rattle.link_maps.specs.Uses.{is_definition, is_common, is_missing_in, stays_undefined};

use crate::uses::Use;
use aout_core::{Segment, Symbol};
use link_out::is_missing;
use link_session::State;

impl Use {
    /// Whether the symbol defines the name. (a.out(5))
    pub fn is_definition(&self) -> bool
        ensures { result ≡ is_definition self.now }
    {
        self.symbol.segment() != Segment::Undefined
    }

    /// Whether the symbol wants the name as a common. (a.out(5))
    pub fn is_common(&self) -> bool
        ensures { result ≡ is_common self.now }
    {
        self.symbol.segment() == Segment::Undefined && self.symbol.value != 0
    }
}

pub(crate) fn first_definition(uses: &[Use]) -> Option<usize>
    ensures { result ≡ position is_definition uses.now }
{
    uses.iter().position(|used| used.is_definition())
}

/// The symbol among the uses of a name that prevails: the first definition, or else the first common, or else the first symbol. (ld(1))
pub fn prevailing_symbol(uses: &[Use]) -> Option<Symbol> {
    let common = uses.iter().position(|used| used.is_common());
    let place = first_definition(uses).or(common).unwrap_or(0);
    Some(uses.get(place)?.symbol)
}

/// Whether an object defines the name of these uses.
pub fn is_any_definition(uses: &[Use]) -> bool
    ensures { result ≡ list_any is_definition uses.now }
{
    uses.iter().any(|used| used.is_definition())
}

fn is_any_common(uses: &[Use]) -> bool
    ensures { result ≡ list_any is_common uses.now }
{
    uses.iter().any(|used| used.is_common())
}

/// Whether the name of the first use is none of those that the linker defines.
fn is_missing_in(uses: &[Use]) -> bool
    ensures { result ≡ is_missing_in (slice_get uses.now 0) }
{
    match uses.first() {
        Some(first) => is_missing(&first.symbol.name, State::Wanted(0)),
        None => false,
    }
}

/// Whether a link leaves the name of these uses undefined: no object defines it or makes it a common, and neither does the linker define
/// it. (ld(1))
pub fn stays_undefined(uses: &[Use]) -> bool
    ensures { result ≡ stays_undefined uses.now }
{
    !is_any_definition(uses) && !is_any_common(uses) && is_missing_in(uses)
}
