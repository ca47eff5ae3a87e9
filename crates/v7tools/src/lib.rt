//! Runs the tools as commands: their arguments, the files that they open and store, and what they write.
//! What names no manual page is our own choice.
//!
//! ```rust
//! use v7tools::{CliFault, ld};
//!
//! let options = Options::new(Layout::Plain, false, Keep::All, None).unwrap();
//! ld(alloc, inputs, &Forced::none(), &options)
//! ```
//!
//! Types:
//!
//! - `FileSystem`, `Stored`: what opens and stores the files of a command, and what became of a file
//! - `Outputs`: where a command writes
//! - `Call`: what the arguments ask for, from `command_words`
//! - `CliFault`: why a command failed
//! - `Script`, `Line`, `BlockWriter`: a session's script, its lines, and a writer for the answers
//! - `Command`, `Step`: what a line of a script asks for, and what was done
//!
//! Functions:
//!
//! - `command`: does what the arguments ask for, with the system's files
//! - `perform`: the same over any `FileSystem` and any streams
//! - `attempt`: the same, and the fault as a value
//! - `words`, `parse`: the arguments of a program, and what they ask for
//! - `load`: reads the file at a path
//! - `ld`: links the files that readers give
//! - `emit`: writes a link's file and its report
//! - `step`: does what a line of a script asks for, and answers
//! - `link_answer`: answers to a link of a session
#![tactic(auto)]

mod fault;
mod files;
mod link;
mod parsing;
mod program;
mod session;
mod setting;
mod status;

pub use command_words::{BlockWriter, Call, Line};
pub use fault::CliFault;
pub use files::loading::load;
pub use host::{FileSystem, Outputs, Stored, words};
pub use link::emitting::emit;
pub use link::linking::ld;
pub use parsing::parse;
pub use program::{attempt, command, perform};
pub use session::commands::{Command, Step};
pub use session::link_answers::link_answer;
pub use session::script::Script;
pub use session::steps::step;
