//! Reads, checks, strips and writes files of the a.out format of PDP-11 Unix.
//! What names no manual page is our own choice.
//!
//! ```rust
//! use aout_core::{ReadFault, Wire, read_file, strip_file, write_file};
//!
//! let file = read_file(alloc, &mut Wire::new(bytes))?;
//! let mut copy = Wire::new(Vec::new(alloc));
//! write_file(&strip_file(file), &mut copy)?;
//! Ok(copy.into_inner())
//! ```
//!
//! Types:
//!
//! - `File`, `Parts`: a file in memory, and the parts that make one
//! - `Header`: the eight words that a file begins with
//! - `Part`: text or data, the parts that have words
//! - `PlacedWord`: a word of a part, with its address and its relocation word
//! - `Reloc`, `Kind`: a relocation word, and what it refers to
//! - `Symbol`, `Segment`, `Name`: a symbol, where its value counts from, and a name of at most eight bytes
//! - `Object`, `ObjectFault`: a file that can be linked, and why a file cannot
//! - `Wire`, `BufferedWrite`: a reader or a writer with a sticky error, and a writer that may hold bytes back
//! - `Block`, `BLOCK_SIZE`: bytes between a wire and its user, and how many a block holds
//! - `ReadFault`, `NoObject`: why no file was read, and why no object was
//! - `DeviceFault`, `Refused`: a device failed, and a request for memory was refused
//! - `FileFault`: why the bytes at a path were not read
//!
//! Functions:
//!
//! - `read_file`, `read_object`: reads a file, or an object, from a wire
//! - `decode_file`: the file that bytes begin with
//! - `write_file`: writes a file to a wire
//! - `strip_file`: the file without symbols and relocation
//! - `is_magic`, `has_whole_sizes`: whether a file may begin with a word, and whether a header has whole sizes
//! - `object_fault`: why a file is not an object
//! - `data_start`, `next_boundary`: where data begins, and the next multiple of 020000
//! - `pc_target`: what a word refers to that is relative to the pc
//!
//! Modules:
//!
//! - `laws`: theorems about reading and writing
//! - `samples`: small objects, and devices over memory, for tests
//!
//! Words have 16 bits, low byte first; docs/FORMAT.md has the format.
#![tactic(auto)]

mod address;
mod block;
mod file;
mod header;
mod incoming;
mod item;
pub mod laws;
mod name;
mod object;
mod object_reader;
mod outgoing;
mod part;
mod placed;
mod reader;
mod refused;
mod reloc;
pub mod samples;
mod strip;
mod symbol;
mod whole;
mod wire;
mod word;
mod writer;

pub use address::{data_start, next_boundary, pc_target};
pub use block::{BLOCK_SIZE, Block};
pub use file::{File, Parts, ReadFault, has_whole_sizes, is_magic};
pub use header::Header;
pub use name::Name;
pub use object::{Object, ObjectFault, object_fault};
pub use object_reader::{NoObject, read_object};
pub use part::Part;
pub use placed::PlacedWord;
pub use reader::{decode_file, read_file};
pub use refused::Refused;
pub use reloc::{Kind, Reloc};
pub use strip::strip_file;
pub use symbol::{Segment, Symbol};
pub use whole::FileFault;
pub use wire::{BufferedWrite, DeviceFault, Wire};
pub use writer::write_file;
