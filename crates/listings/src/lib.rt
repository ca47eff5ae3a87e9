//! Writes an a.out file as a listing, which people can read and change, and makes the file of a listing.
//! What names no manual page is our own choice.
//!
//! ```rust
//! match write_listing(alloc, file, &Nothing) {
//!     Ok(text) => read_listing(alloc, Addresses::Compared, &text),
//!     Err(error) => Err(ListingFault::Memory(Refused::from(error))),
//! }
//! ```
//!
//! Types:
//!
//! - `ListingFault`, `Mistakes`, `Fault`, `Reason`: why a listing was not read: up to ten mistakes, by line, column and reason
//! - `Addresses`: whether the addresses of a listing are compared or computed
//! - `Remark`, `Nothing`: what a listing remarks beside the file, and no remarks
//!
//! Functions:
//!
//! - `write_listing`: the listing of a file, with remarks
//! - `write_cut_listing`: the same with its first relocation words alone
//! - `read_listing`: the file of a listing
//! - `says_something`: whether a listing has a line that is neither blank nor a comment
//! - `put_notes`: appends notes, a line each, as a listing has them
//! - `put_printed`: appends bytes; those below the blank as `\ooo`
//!
//! Modules:
//!
//! - `laws`: reading the listing of a file gives that file
//!
//! A listing has the words of text and data with their addresses and relocation words, the size of bss, the symbols, and the
//! words of the header that do not follow from these, all in octal. This is one of an object whose `_main` returns at once:
//!
//!     text
//!     000000  000207     0
//!     data
//!     bss 0
//!     symbols
//!     0     _main      42  000000
//!     end
//!
//! docs/OBJECTS.md has the whole form. Only tested: what is said of a mistake.
#![tactic(auto)]

mod columns;
mod draft;
mod fault;
pub mod laws;
mod numbers;
mod read;
mod remark;
mod rows;
mod said;
mod write;

pub use columns::says_something;
pub use draft::Addresses;
pub use fault::{Fault, ListingFault, Mistakes, Reason};
pub use read::read_listing;
pub use remark::{Nothing, Remark};
pub use said::{put_notes, put_printed};
pub use write::{write_cut_listing, write_listing};
