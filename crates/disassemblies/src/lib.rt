//! Shows the text of a file as instructions with names, as `objdump -d` does for other systems.
//! What names no manual page is our own choice.
//!
//! ```rust
//! use disassemblies::put_disassembly;
//! use instructions::Decoder;
//!
//! let file = read_file(alloc, &mut Wire::new(bytes))?;
//! let mut text = Text::new(alloc);
//! put_disassembly(&mut text, Decoder::Unix, &file);
//! Ok(text.finish()?)
//! ```
//!
//! Functions:
//!
//! - `NamedFile`: a file whose symbols are found by their addresses, made once for all its lines
//! - `put_disassembly`, `put_disassembly_between`: append the whole text of a file, or a part of it, in columns
//! - `put_plain_disassembly`: appends words at an address in these columns, without names
//! - `unix_line_in`: the line that the words at a place of a file's text begin
//! - `put_line_text`: appends the text of that line
//! - `ListedLines`: the lines that a listing shows: instructions begin anew at each symbol of text
//! - `put_again`: appends how often rows are as the row before
//! - `put_labels`: appends the labels of words
//! - `put_pointed_text`: appends what a number refers to by its relocation word, with the string there
//! - `put_string_in`: appends the string that begins in a word of data
//! - `Sweep`: a file and the lines of its text, decoded once for all that is said of them
//! - `write_explained`: the listing of a file with remarks, notes before it and findings after it
//! - `write_remains`: that of a file with its first relocation words alone
//! - `line_starts`: for each word of a text, whether a line begins there
//! - `is_start`, `line_start`: whether a line begins at a place, and where the line begins that has the word there
//!
//! A file with relocation is an object, in which relocation words name what each operand refers to; in any other the symbols
//! name the addresses. Addresses are in bytes from the start of the text, which is at 0. docs/OBJECTS.md has the form of a listing. Proved:
//! where lines begin, the nearest label, and that a listing reads back as its file. Only tested: all other texts.
#![tactic(auto)]

mod columns;
mod label;
mod line;
mod linked;
mod listed;
mod listing;
mod named;
mod names;
mod naming;
mod near;
mod relocated;
mod remarks;
mod starts;
mod strings;
mod sweep;
mod word_text;

pub use columns::{put_again, put_disassembly, put_disassembly_between, put_plain_disassembly};
pub use label::put_labels;
pub use line::{put_line_text, unix_line_in};
pub use listed::ListedLines;
pub use listing::{SEGMENT_WORDS, write_explained, write_remains};
pub use named::NamedFile;
pub use names::Names;
pub use remarks::put_pointed_text;
pub use starts::{is_start, line_start, line_starts};
pub use strings::put_string_in;
pub use sweep::Sweep;
