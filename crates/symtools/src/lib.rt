//! Writes the lines of nm and size for files of all four magic numbers, linked or not.
//! What names no manual page is our own choice.
//!
//! ```rust
//! let files = [(path, file)];
//! let mut out = Wire::new(Vec::new(alloc));
//! nm(alloc, &files, options, &mut out)?;
//! size(&files, &mut out)?;
//! Ok(out.into_inner())
//! ```
//!
//! Types:
//!
//! - `NmOptions`: which symbols nm shows, and in which order
//! - `LineBuffer`: the bytes of a line
//! - `ToolFault`: why not all lines went out
//!
//! Functions:
//!
//! - `nm`: the symbols of files
//! - `size`: the sizes of files
//! - `line`, `line_of`, `size_line`: the line of one symbol, written or returned, and that of the sizes of one file
//! - `shown`: the symbols that nm shows of a table
//! - `value_column`, `letter`: its value and its letter, as nm shows them
#![tactic(auto)]

mod buffer;
mod fault;
mod heading;
mod listing;
mod sizes;
mod symbol_line;

pub use buffer::LineBuffer;
pub use fault::ToolFault;
pub use listing::{nm, shown};
pub use sizes::{size, size_line};
pub use symbol_line::{letter, line, line_of, value_column};
pub use tool_options::NmOptions;
