//! The objects of further definitions, by what withdrawals take back.
ghost use Rattle.std.specs.Prelude.{◌≡◌, ◌-◌, ◌++◌, length, replicate, take, IfOk, OnOk};
ghost use Rattle.link_session.specs.{Labelled.objects, Mentions.mentions, States.multiple_names};
ghost use Rattle.libv7.specs.FindingPlaces.{differing, further_objects};

use link_session::Session;
use std::alloc::{AllocError, Global};

/// Withdraws the last object, and returns how many definitions in it differ from the first of their name.
fn withdraw_counting(session: &mut Session) -> usize
    ensures forced { session.new.forced ≡ session.old.forced }
    ensures entries { session.new.entries
        ≡ take (length session.old.entries - 1) session.old.entries }
    ensures count { result ≡ differing session.old.forced (objects session.old.entries)
        - differing session.new.forced (objects session.new.entries) }
{
    let count = session.multiples().len();
    session.withdraw();
    count.saturating_sub(session.multiples().len())
}

/// Appends a number so often.
fn put_times(numbers: &mut Vec<usize>, number: usize, times: usize) -> Result<(), AllocError>
    ensures { OnOk result (numbers.new.items ≡ numbers.old.items ++ replicate times number) }
{
    for _ in 0..times {
        numbers.push(number)?;
    }
    Ok(())
}

/// The number of the object of each definition that differs from the first of its name, in the order of the definitions: one for each
/// name that is multiply defined. An error: out of memory.
pub(crate) fn further_objects(alloc: Global, all: Session) -> Result<Vec<usize>, AllocError>
    ensures value { IfOk result (λ numbers.
        numbers.items ≡ further_objects all.forced (objects all.entries)) }
    ensures as_many { IfOk result (λ numbers. length numbers.items
        ≡ length (multiple_names (mentions all.forced (objects all.entries)))) }
{
    let mut session = all;
    let mut numbers = Vec::new(alloc);
    let mut number = session.entries().len();
    while number > 0 {
        number -= 1;
        let times = withdraw_counting(&mut session);
        put_times(&mut numbers, number, times)?;
    }
    numbers.reverse();
    Ok(numbers)
}
