//! What kind of file some bytes are, and what is wrong, odd or suspicious in it, for `v7-explain` and libv7.
//! What names no manual page is our own choice.
//!
//! A finding has the byte of the file where it is, counted from 0. `wrong_bytes` and `wrong_words` find what is damaged, and why. `odd_of`
//! finds what is not refused, but unusual. `suspicions_of` finds words of a text that are unlikely as instructions: no instruction begins
//! with a relocated word, and a relocated operand word has the pc bit if and only if its operand counts from the pc. docs/OBJECTS.md shows
//! all three. Proved: which findings there are, at which bytes, and whether each is sure. Only tested: the words of findings and notes, what
//! other kind of file some bytes are, and what is there of a file that ends early.
//!
//! An example:
//!
//! ```
//! /// What is odd of a file, a line each.
//! fn oddities(alloc: Global, bytes: &[u8]) -> Result<Notes> {
//!     let file = read_file(alloc, &mut Wire::new(bytes))?;
//!     let mut notes = Notes::new(alloc);
//!     put_findings(&mut notes, "odd", &odd_of(alloc, bytes, &Sweep::new(alloc, &file)?, true)?);
//!     Ok(notes)
//! }
//! ```
#![tactic(auto)]

mod addresses;
mod branches;
mod evidence;
mod finding;
mod heading;
pub mod laws;
mod leads;
mod notes;
mod odd;
mod other_files;
mod outside;
mod places;
mod reached;
mod referent;
mod remains;
mod suspect;
mod suspicions;
mod trust;
mod uses;
mod wrong;

pub use evidence::Evidence;
pub use finding::{Finding, FindingKind, put_finding_text, put_findings};
pub use heading::{KindText, put_header};
pub use notes::Notes;
pub use odd::odd_of;
pub use other_files::{OtherForm, header_of, is_of_gnu, likeness, other_form};
pub use places::{FilePlaces, segment_name};
pub use reached::reached_places;
pub use remains::{decode_there, put_missing, relocs_there};
pub use suspicions::{all_odd_of, suspicions_of};
pub use wrong::{is_damaged, wrong_bytes, wrong_in, wrong_words};
