//! Links the objects of a session: a file and a report, by the rules of docs/LINK.md.
//! What names no manual page is our own choice.
//!
//! ```rust
//! use link_out::{Keep, Layout, LinkFault, Linked, Options, finish};
//!
//! let options = Options::new(Layout::Plain, false, Keep::All, None).unwrap();
//! finish(alloc, session, &options)
//! ```
//!
//! Types:
//!
//! - `Linked`, `Report`: a linked file, and what is reported of it
//! - `LinkFault`: why there is no file
//! - `Edit`, `Reply`, `RunFault`: an addition or a withdrawal, the reply to it, and why a run of them gave no link
//! - `Bases`: where the segments of a link begin and end
//! - `Options`, `Layout`, `Keep`, `OptionFault`: what a link is asked for, from `tool_options`
//!
//! Functions:
//!
//! - `finish`: links the objects of a session
//! - `run`: makes edits of a session in order, and links the objects that are left
//! - `link_bases`: where the segments of a session's link are
//! - `link_externals`: the externals of a link with their addresses, also if it is refused
//! - `is_missing`: whether a link reports a name as undefined
//!
//! Limits:
//!
//! - `LAST_ADDRESS`, `MOST_ROWS`, `MOST_NUMBER`: of addresses, of the symbols of a table, and of a symbol's number in a relocation word
//!
//! Modules:
//!
//! - `laws`: theorems about links
#![tactic(auto)]

mod edit;
mod externals;
mod finals;
mod kept_symbols;
pub mod laws;
mod layout;
mod linked;
mod linker;
mod plan;
mod relocs;
mod report;
mod reserved_names;
mod runner;
mod symbol_numbers;
mod table;
mod words;

pub use edit::{Edit, Reply, RunFault};
pub use externals::link_externals;
pub use kept_symbols::MOST_ROWS;
pub use layout::{Bases, link_bases};
pub use linked::{LinkFault, Linked, Report};
pub use linker::{LAST_ADDRESS, finish};
pub use relocs::MOST_NUMBER;
pub use reserved_names::is_missing;
pub use runner::run;
pub use tool_options::{Keep, Layout, OptionFault, Options};
