//! The map of a link: where the segments of each object lie, who defines each external name, who wants it, and which words refer to
//! it. A link that is refused has a map too. docs/OBJECTS.md shows one.
//! What names no manual page is our own choice.
//!
//! An example:
//!
//! ```
//! /// How many symbols there are of names that stay undefined, in the link of some objects.
//! fn undefined_uses(alloc: Global, objects: &Objects, forced: &Forced, options: &Options) -> Result<usize> {
//!     let map = map_of(alloc, objects, forced, options)?;
//!     let mut count = 0usize;
//!     for uses in &map.by_name(alloc)? {
//!         if stays_undefined(uses) {
//!             count = count.saturating_add(uses.len());
//!         }
//!     }
//!     Ok(count)
//! }
//! ```
#![tactic(auto)]

mod groups;
mod keys;
mod labels;
mod leads;
mod limit_records;
mod map;
mod map_records;
mod members;
mod name_records;
mod names;
mod near;
mod outcome;
mod places;
mod records;
mod references;
mod spots;
mod unused;
mod uses;

pub use labels::{is_function, label_before};
pub use limit_records::{LimitRecord, limits_of};
pub use map::{LinkMap, map_of};
pub use map_records::{MapRecords, records_of};
pub use members::{Listed, Objects, Refused};
pub use name_records::NameRecord;
pub use names::{is_any_definition, prevailing_symbol, stays_undefined};
pub use outcome::Outcome;
pub use places::Places;
pub use records::{ObjectRecord, UseRecord, padded};
pub use references::{ReferringWord, Words, put_line_of, word_at, words_at, words_to};
pub use spots::{Spot, is_within, spots_at};
pub use unused::is_mention;
pub use uses::Use;
