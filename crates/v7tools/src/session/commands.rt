//! What a session is asked for, and what comes of it.
use aout_core::Wire;
use link_out::Linked;

/// What a step is asked to do: a line of a script, with the file at its path opened.
#[derive(Drop)]
pub enum Command<R> {
    /// Adds the object at this path. An absent wire is a file that can't be opened.
    Add(String, Option<Wire<R>>),
    /// Takes the last object away.
    Withdraw,
    /// Lists the external names.
    Externals,
    /// Lists the names that nothing defines, but for commons and `_etext`, `_edata` and `_end`.
    Undefined,
    /// Links the objects.
    Link,
    /// Any other line.
    Bad,
}

/// What a step did.
#[derive(Debug, Drop)]
pub enum Step {
    /// What was asked for; the answer is written.
    Done,
    /// Nothing: the session is as before, and the answer says why.
    Refused,
    /// The link is made, and no answer is written yet: it depends on what becomes of the file.
    ToStore(Linked),
}
