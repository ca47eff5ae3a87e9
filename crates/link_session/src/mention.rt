//! The mentions of external names.
ghost use Rattle.std.specs.Prelude.{◌≡◌, ◌+◌, ◌*◌, ◌^◌, ◌≤◌, ◌<◌, ◌++◌, ◌&&◌, ◌∷◌, [], cond, nat_lt, filter, length, vec_len, vec_capacity, IfSome, ℕ};
ghost use Rattle.indexmap.specs.IndexMap.{spare};
ghost use Rattle.aout_core.specs.{Words.plus, WellFormed.{is_external, segment_of}};
ghost use Rattle.link_session.specs.{Starts.shift_by, Image.state_at, Mentions.statement_by, internal.Updates.clashes};
ghost use Rattle.link_session.specs.internal.Additions.{with_mention, mention_of, clash, state_mark, place_in, state_for, changes};
ghost use Rattle.link_session.specs.internal.Additions.{mentions_by, with_mentions, state_marks, all_clashes, all_places};

use crate::mark::Mark;
use crate::merged::Externals;
use crate::relocate::Shifts;
use crate::state::{State, changes, clashes, updated_state};
use aout_core::{Name, Segment, Symbol};
use indexmap::map::Entry;

/// What stands for the place of a symbol that is not external: no name has it.
pub(crate) const NO_PLACE: u16 = u16::MAX;

/// The state at a place; after the last name, wanted at size 0.
pub(crate) fn state_at(externals: &Externals, place: u16) -> State
    ensures { result ≡ state_at externals.now.entries place }
{
    match externals.get_index(place as usize) {
        Some((_, state)) => *state,
        None => State::Wanted(0),
    }
}

/// A name, and what a symbol says of it.
#[derive(Clone, Copy)]
struct Claim {
    name: Name,
    says: State,
}

/// The symbols of an object's symbol table, and what is added to their addresses.
#[derive(Clone, Copy)]
pub(crate) struct Table<'a> {
    pub(crate) symbols: &'a [Symbol],
    pub(crate) shifts: Shifts,
}

/// What a symbol says of its name.
fn statement(symbol: &Symbol, shifts: &Shifts) -> State
    ensures { result ≡ statement_by (shift_by shifts.now) (segment_of symbol.now) symbol.now.value }
{
    match symbol.segment() {
        Segment::Undefined => State::Wanted(symbol.value),
        Segment::Other => definition(Segment::Absolute, symbol.value, shifts),
        segment => definition(segment, symbol.value, shifts),
    }
}

fn definition(segment: Segment, value: u16, shifts: &Shifts) -> State
    ensures { result ≡ State.Defined segment (plus value (shift_by shifts.now segment)) }
{
    State::Defined(segment, value.wrapping_add(shifts.of(segment)))
}

/// Marks the state of an earlier name that a mention changes. There is space for the mark.
fn note_state(marks: &mut Vec<Mark>, kept: usize, place: usize, was: State, says: State)
    requires small { kept ≤ 65535 }
    requires space { vec_len marks.old < vec_capacity marks.old }
    ensures marks { marks.new.items ≡ marks.old.items
        ++ cond (nat_lt place kept && changes was says) (Mark.StateWas place was ∷ []) [] }
    ensures len { vec_len marks.new ≤ vec_len marks.old + 1 }
    ensures capacity { vec_capacity marks.old ≤ vec_capacity marks.new }
{
    if place < kept && changes(was, says) {
        marks.push_reserved(Mark::StateWas(place as u16, was));
    }
}

/// Notes a name that is defined again, and differently. There is space for it.
fn note_clash(multiples: &mut Vec<Name>, name: Name, was: State, says: State)
    requires { vec_len multiples.old < vec_capacity multiples.old }
    ensures names { multiples.new.items
        ≡ multiples.old.items ++ cond (clashes was says) (name ∷ []) [] }
    ensures len { vec_len multiples.new ≤ vec_len multiples.old + 1 }
    ensures capacity { vec_capacity multiples.old ≤ vec_capacity multiples.new }
{
    if clashes(was, says) {
        multiples.push_reserved(name);
    }
}

/// Mentions a name, and answers its place and the state that it had. There is space for it.
fn update(externals: &mut Externals, name: Name, says: State) -> (usize, State)
    requires { 0 < spare externals.old }
    ensures place { result.0 ≡ place_in externals.old.entries name }
    ensures within { result.0 ≤ length externals.old.entries }
    ensures state { result.1 ≡ state_for externals.old.entries name }
    ensures names { externals.new.entries
        ≡ with_mention externals.old.entries (mention_of name says) }
    ensures left { spare externals.old ≤ spare externals.new + 1 }
{
    let (place, known) = externals.insert_full(name, says).unwrap();
    match known {
        Some(was) => {
            externals[place] = updated_state(was, says);
            (place, was)
        }
        None => (place, State::Wanted(0)),
    }
}

/// Mentions a name. There is space for it.
pub(crate) fn mention(externals: &mut Externals, name: Name, says: State)
    requires { 0 < spare externals.old }
    ensures names { externals.new.entries
        ≡ with_mention externals.old.entries (mention_of name says) }
    ensures left { spare externals.old ≤ spare externals.new + 1 }
{
    update(externals, name, says);
}

/// Enters an external symbol of an object, and answers the place of its name. There is space for it; `kept` names were
/// there before the object.
fn enter(
    externals: &mut Externals,
    multiples: &mut Vec<Name>,
    marks: &mut Vec<Mark>,
    kept: usize,
    claim: Claim,
) -> u16
    requires small { kept ≤ 65535 }
    requires names { length externals.old.entries ≤ 65535 }
    requires names_space { 0 < spare externals.old }
    requires multiples_space { vec_len multiples.old < vec_capacity multiples.old }
    requires marks_space { vec_len marks.old < vec_capacity marks.old }
    ensures place { result ≡ place_in externals.old.entries claim.name }
    ensures names { externals.new.entries
        ≡ with_mention externals.old.entries (mention_of claim.name claim.says) }
    ensures multiples { multiples.new.items
        ≡ multiples.old.items ++ clash externals.old.entries (mention_of claim.name claim.says) }
    ensures marks { marks.new.items ≡ marks.old.items
        ++ state_mark kept externals.old.entries (mention_of claim.name claim.says) }
    ensures names_left { spare externals.old ≤ spare externals.new + 1 }
    ensures multiples_len { vec_len multiples.new ≤ vec_len multiples.old + 1 }
    ensures multiples_capacity { vec_capacity multiples.old ≤ vec_capacity multiples.new }
    ensures marks_len { vec_len marks.new ≤ vec_len marks.old + 1 }
    ensures marks_capacity { vec_capacity marks.old ≤ vec_capacity marks.new }
{
    let Claim { name, says } = claim;
    match externals.entry(name).unwrap() {
        Entry::Occupied(mut known) => {
            let place = known.index();
            let was = *known.get();
            if !changes(was, says) {
                note_clash(multiples, name, was, says);
                return place as u16;
            }
            known.insert(updated_state(was, says));
            note_state(marks, kept, place, was, says);
            note_clash(multiples, name, was, says);
            place as u16
        }
        Entry::Vacant(new) => {
            let place = new.index();
            new.insert_entry(says);
            note_state(marks, kept, place, State::Wanted(0), says);
            place as u16
        }
    }
}

/// Enters all external symbols of an object, in order, and appends the place of each symbol's name. There is space for
/// them.
pub(crate) fn enter_all(
    externals: &mut Externals,
    multiples: &mut Vec<Name>,
    marks: &mut Vec<Mark>,
    places: &mut Vec<u16>,
    table: &Table<'_>,
)
    requires names { length
        (with_mentions externals.old.entries (mentions_by table.now.shifts table.now.symbols.now))
        ≤ 65535 }
    requires names_space { length (filter is_external table.now.symbols.now) ≤ spare externals.old }
    requires multiples_space { vec_len multiples.old
        + length (filter is_external table.now.symbols.now) ≤ vec_capacity multiples.old }
    requires marks_space { vec_len marks.old + length (filter is_external table.now.symbols.now)
        ≤ vec_capacity marks.old }
    requires places_space { vec_len places.old + length table.now.symbols.now
        ≤ vec_capacity places.old }
    ensures names { externals.new.entries
        ≡ with_mentions externals.old.entries (mentions_by table.now.shifts table.now.symbols.now) }
    ensures multiples { multiples.new.items ≡ multiples.old.items
        ++ all_clashes externals.old.entries (mentions_by table.now.shifts table.now.symbols.now) }
    ensures marks { marks.new.items ≡ marks.old.items ++ state_marks (length externals.old.entries)
        externals.old.entries (mentions_by table.now.shifts table.now.symbols.now) }
    ensures places { places.new.items
        ≡ places.old.items ++ all_places externals.new.entries table.now.symbols.now }
{
    let kept = externals.len();
    for symbol in table.symbols {
        let mut place = NO_PLACE;
        if symbol.is_external() {
            let claim = Claim {
                name: symbol.name,
                says: statement(symbol, &table.shifts),
            };
            place = enter(externals, multiples, marks, kept, claim);
        }
        places.push_reserved(place);
    }
}
