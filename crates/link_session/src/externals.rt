//! The externals of a session, one after another.
ghost use Rattle.std.specs.{Prelude.◌≡◌, Iterator.{YieldsFirst, item_count}};

use crate::merged::Externals;
use crate::state::State;
use aout_core::Name;
use indexmap::map::Iter;
use std::marker::Model;

/// The externals that are left, by first mention: the name of each, and what is known of it.
#[derive(Drop)]
pub struct ExternalStates<'a> {
    entries: Iter<'a, Name, State>,
}

impl<'a> Model for ExternalStates<'a> {
    ghost use Rattle.link_session.specs.Image.{Named};

    ghost Value = { Named };

    ghost view = { λ s. s.entries };
}

impl<'a> ExternalStates<'a> {
    pub(crate) fn of(externals: &'a Externals) -> ExternalStates<'a>
        ensures { result ≡ externals.now.entries }
    {
        ExternalStates {
            entries: externals.iter(),
        }
    }
}

impl<'a> Iterator for ExternalStates<'a> {
    type Item = (Name, State);

    ghost next_gives = { YieldsFirst (λ left. left) };

    ghost remaining = { item_count (λ left. left) };

    fn next(&mut self) -> Option<(Name, State)> {
        let (name, state) = self.entries.next()?;
        Some((*name, *state))
    }
}
