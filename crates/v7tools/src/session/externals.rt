//! The lists of a session's external names.
ghost use Rattle.std.specs.Prelude.{◌≡◌};
ghost use Rattle.aout_core.specs.Wires.{Writes};
ghost use Rattle.v7tools.specs.{Answers.{entry_of, externals_text, undefined_text}, internal.StepParts.missing_line};

use aout_core::{DeviceFault, Name, Symbol, Wire};
use link_out::is_missing;
use link_session::{Session, State};
use std::io::Write;
use symtools::line;

/// An external as a symbol of a table: with the merged offset if it is defined, else with the size that is
/// wanted.
fn entry_of(name: Name, state: State) -> Symbol
    ensures { result ≡ entry_of name state }
{
    match state {
        State::Defined(segment, offset) => Symbol {
            name,
            type_bits: 0o40 + segment.number(),
            value: offset,
        },
        State::Wanted(size) => Symbol {
            name,
            type_bits: 0o40,
            value: size,
        },
    }
}

/// Writes the nm line of each external, by first mention.
pub(crate) fn put_externals<W: Write>(
    session: &Session,
    answers: &mut Wire<W>,
) -> Result<(), DeviceFault>
    ensures { Writes W.contents result answers.old answers.new
        (externals_text session.now.forced session.now.entries) }
{
    answers.working()?;
    for index in 0..session.external_count() {
        let (name, state) = session.external(index).unwrap();
        line(&entry_of(name, state), answers)?;
    }
    Ok(())
}

/// Writes a name and a newline, if the name is undefined.
fn put_if_missing<W: Write>(
    name: &Name,
    state: State,
    answers: &mut Wire<W>,
) -> Result<(), DeviceFault>
    ensures { Writes W.contents result answers.old answers.new (missing_line (name.now, state)) }
{
    if is_missing(name, state) {
        answers.put_both(name.as_bytes(), b"\n")
    } else {
        answers.put(b"")
    }
}

/// Writes a line for each name that nothing defines, by first mention.
pub(crate) fn put_undefined<W: Write>(
    session: &Session,
    answers: &mut Wire<W>,
) -> Result<(), DeviceFault>
    ensures { Writes W.contents result answers.old answers.new
        (undefined_text session.now.forced session.now.entries) }
{
    answers.working()?;
    for index in 0..session.external_count() {
        let (name, state) = session.external(index).unwrap();
        put_if_missing(&name, state, answers)?;
    }
    Ok(())
}
