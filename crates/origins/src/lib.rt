//! Which objects a program was linked from, and where they are in it.
//! What names no manual page is our own choice.
//!
//! ```rust
//! use origins::places;
//!
//! let found = places(alloc, program, object)?;
//! Ok(found.first().copied())
//! ```
//!
//! Functions:
//!
//! - `places`: the addresses of a program's text at which an object fits
//! - `tell_text`, `tell_data`, `tell_defined`, `tell_word`, `has_slots`: whether objects agree with a table of addresses that they share,
//!   and what they add to it
//!
//! An object fits at a place if there are moves of its segments, and an address for each name that it leaves undefined, by which each of
//! its words, relocated, is the program's word there. No word is guessed.
#![tactic(auto)]

mod finding;
mod placing;
mod sharing;
mod telling;
#[cfg(test)]
mod tests;

pub use finding::places;
pub use sharing::{has_slots, tell_data, tell_defined, tell_text};
pub use telling::tell_word;
