//! Joins objects to one image, and takes the last one out again so that the image is as it was.
//! What names no manual page is our own choice.
//!
//! ```rust
//! let before = session.external_count();
//! session.add(label, object)?;
//! let after = session.external_count();
//! session.withdraw().unwrap();
//! withdraw_law();
//! Ok(after.saturating_sub(before))
//! ```
//!
//! Types:
//!
//! - `Session`: the objects added so far, their merged image, and a journal
//! - `Entry`: an object of a session, and its label
//! - `AddRefused`, `AddFault`: an object that was not added, handed back, and why
//! - `Cell`, `Target`: a word of the image, and what it refers to
//! - `State`: what the objects define of a name, or at which size they want it
//! - `ExternalStates`: the names with their states, one after another
//! - `Mark`, `Place`: what an addition overwrote, and where
//! - `Starts`, `Shifts`: where the segments of an object start in the image, and by how much its addresses move
//! - `Forced`: the names of `-u`, at most 64
//!
//! Limits:
//!
//! - `MOST_BYTES`, `MOST_NAMES`: of the bytes of a segment, and of the external names
//!
//! Modules:
//!
//! - `laws`: theorems about withdrawals, marks and starts
#![tactic(auto)]

mod bind;
mod cell;
mod chain;
mod entry;
mod externals;
mod join;
pub mod laws;
mod limits;
mod mark;
mod mention;
mod merged;
mod relocate;
mod session;
mod state;
mod undo;

pub use cell::{Cell, Target};
pub use entry::{AddFault, AddRefused, Entry};
pub use externals::ExternalStates;
pub use limits::{MOST_BYTES, MOST_NAMES};
pub use mark::{Mark, Place};
pub use relocate::{Shifts, Starts};
pub use session::Session;
pub use state::State;
pub use tool_options::Forced;
