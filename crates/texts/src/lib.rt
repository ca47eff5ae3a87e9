//! Texts that grow, with numbers in octal and names as they print.
//! What names no manual page is our own choice.
//!
//! A `Text` remembers whether memory ran out for it, so a function that only appends has no error. `finish` gives the bytes, or
//! the error for all of them.
//!
//! ```rust
//! /// The line of a name: its value in six octal digits, a blank, and the name.
//! fn name_line(alloc: Global, value: u16, name: &[u8]) -> Result<Vec<u8>, AllocError> {
//!     let mut text = Text::new(alloc);
//!     text.put_six_digits(u32::from(value));
//!     text.put_byte(b' ');
//!     text.put_printable_name(name);
//!     text.put_byte(b'\n');
//!     text.finish()
//! }
//! ```
//!
//! Types:
//!
//! - `Text`: bytes that grow
//! - `OctalBuffer`: an array for a number in octal, without memory
//!
//! Functions:
//!
//! - `six_digits`: the last octal digits of a number
//! - `is_printable`: whether a byte of a name is shown as it is
#![tactic(auto)]

mod names;
mod numbers;
mod text;

pub use names::is_printable;
pub use numbers::{OctalBuffer, six_digits};
pub use text::{Printable, Text};
