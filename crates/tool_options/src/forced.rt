//! The forced names, which are mentioned before all objects.
ghost use Rattle.std.specs.Prelude.{◌≡◌, ◌≤◌, length, []};
ghost use Rattle.tool_options.specs.{ForcedNames.{AreDifferent, takes, with_name}, NameLists.is_among};

use aout_core::Name;
use std::marker::Model;

/// How many names can be forced.
const MOST: usize = 64;

fn is_among(names: &[Name], name: &Name) -> bool
    ensures { result ≡ is_among names.now name.now }
{
    names.iter().any(|known| name == known)
}

/// A list of at most 64 different names. It is a fixed array, and allocates nothing. Contracts see it as the
/// list. (ld(1), the option `-u`; the limit: own choice)
#[derive(Clone, Copy, Debug)]
pub struct Forced {
    slots: [Name; 64],
    count: usize,
}

impl Model for Forced {
    ghost use Rattle.std.specs.Prelude.{ℕ, List};

    ghost Value = { List (List ℕ) };

    ghost use Rattle.tool_options.specs.{ForcedNames.forced_of, internal.ForcedSlots.{IsForced, slots_of, slots_back}};

    ghost view = { forced_of };

    ghost invariant = { IsForced };

    ghost inverse = { slots_of };

    ghost inverse_ok = { slots_back };
}

impl Forced {
    /// No names.
    pub fn none() -> Forced
        ensures { result ≡ [] }
    {
        Forced {
            slots: [Name::from_bytes(&[]); 64],
            count: 0,
        }
    }

    /// Appends a name, unless it is there already, and returns whether it is there now: false means that 64 other
    /// names are, and then nothing changes.
    pub fn push(&mut self, name: Name) -> bool
        ensures answer { result ≡ takes self.old name }
        ensures names { self.new ≡ with_name self.old name }
    {
        if is_among(self.names(), &name) {
            return true;
        }
        if self.count == MOST {
            return false;
        }
        self.slots[self.count] = name;
        self.count += 1;
        true
    }

    /// The names, in the order in which they were appended.
    pub fn names(&self) -> &[Name]
        ensures value { result.now ≡ self.now }
        ensures short { length result.now ≤ 64 }
        ensures different { AreDifferent self.now }
    {
        &self.slots[..self.count]
    }
}
