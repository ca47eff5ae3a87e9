//! Converts objects of GNU's assembler for the PDP-11 (`pdp11-aout`) to objects of the Seventh Edition.
//! What names no manual page is our own choice.
//!
//! ```rust
//! use gnu_objects::{Options, Refusal, convert, place_of};
//!
//! match convert(alloc, bytes, options) {
//!     Ok(object) => Ok(object),
//!     Err(refusal) => Err((refusal, place_of(bytes, refusal))),
//! }
//! ```
//!
//! Types:
//!
//! - `Options`, `Locals`: what a conversion leaves out
//! - `Refusal`, `Size`: why an object is refused, and which size is wrong
//! - `Remark`, `Clash`: what there is to say of a name, and two names that would be one
//! - `GnuSymbol`: a symbol in GNU's form
//!
//! Functions:
//!
//! - `convert`: the object of the Seventh Edition
//! - `clashes_among`: the externals of several files whose names would be those of earlier ones
//! - `remarks`: the external names that are cut, and the locals that go because of their names
//! - `place_of`: the byte of the file that a refusal names
//! - `whole_name`: the whole name of a symbol
//!
//! Modules:
//!
//! - `laws`: a theorem about conversions
//!
//! Only tested: what `remarks` and `whole_name` find for a person, and with which earlier name `clashes_among` finds that one clashes.
//!
//! Header, text, data and relocation words are the same in both. A symbol of GNU's form has 8 bytes, of which a word is the place
//! of its name in a table of strings after the symbols. docs/OBJECTS.md explains how such objects are made.
#![tactic(auto)]

mod alike;
mod bytes;
mod checks;
mod clash;
mod conversion;
mod external;
pub mod laws;
mod names;
mod options;
mod places;
mod refusal;
mod remark;
mod staying;
mod symbols;
mod tables;
mod whole;
mod words;

pub use clash::{Clash, clashes_among};
pub use conversion::convert;
pub use options::{Locals, Options};
pub use places::{place_of, whole_name};
pub use refusal::{Refusal, Size};
pub use remark::{Remark, remarks};
pub use symbols::GnuSymbol;
