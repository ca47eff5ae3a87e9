//! What is known of an external name, and what one more mention makes of it.
ghost use Rattle.std.specs.Prelude.{◌≡◌};
ghost use Rattle.link_session.specs.{internal.Additions.changes, internal.Updates.{clashes, updated_state}};

use aout_core::Segment;

/// What the objects so far say of a name. (ld(1) and a.out(5); which definition counts: own choice)
#[derive(Clone, Copy, Debug, PartialEq, Eq)]
pub enum State {
    /// The first definition: absolute, text, data or bss, and the offset in bytes from the start of that merged
    /// segment; for an absolute name its value.
    Defined(Segment, u16),
    /// No definition: the size of a common in bytes, the largest that was mentioned, or 0 if the name is undefined.
    Wanted(u16),
}

/// The state of a name that is mentioned once more.
pub(crate) fn updated_state(was: State, says: State) -> State
    ensures { result ≡ updated_state was says }
{
    match (was, says) {
        (State::Wanted(size), State::Wanted(more)) => State::Wanted(size.max(more)),
        (State::Wanted(_), State::Defined(segment, offset)) => State::Defined(segment, offset),
        (State::Defined(segment, offset), _) => State::Defined(segment, offset),
    }
}

/// Whether a mention changes the state.
pub(crate) fn changes(was: State, says: State) -> bool
    ensures { result ≡ changes was says }
{
    match (was, says) {
        (State::Wanted(size), State::Wanted(more)) => size < more,
        (State::Wanted(_), State::Defined(_, _)) => true,
        (State::Defined(_, _), _) => false,
    }
}

/// Whether a name that is defined is defined again, and differently.
pub(crate) fn clashes(was: State, says: State) -> bool
    ensures { result ≡ clashes was says }
{
    match (was, says) {
        (State::Defined(segment, offset), State::Defined(again, place)) => {
            !(again == segment && place == offset)
        }
        _ => false,
    }
}
