//! States what the options of `ld` and `nm` ask for.
//! What names no manual page is our own choice.
//!
//! ```rust
//! use tool_options::{Keep, Layout, Options};
//!
//! Options::new(Layout::Plain, true, Keep::NotL, None).unwrap()
//! ```
//!
//! Types:
//!
//! - `Flags`: which flags of ld are given; `options` makes options of them
//! - `Options`: options that do not exclude each other
//! - `Layout`: where data begins, and which magic number the file has
//! - `Keep`: which symbols the file keeps
//! - `OptionFault`: which options exclude each other
//! - `Forced`: the names of `-u`, at most 64
//! - `NmOptions`: which symbols nm shows, and in which order
#![tactic(auto)]

mod flags;
mod forced;
mod nm_options;
mod options;

pub use flags::Flags;
pub use forced::Forced;
pub use nm_options::NmOptions;
pub use options::{Keep, Layout, OptionFault, Options};
