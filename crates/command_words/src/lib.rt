//! The words of commands: the arguments of one, which name a tool, with options and files; and the lines of a session, which are
//! read in blocks, with a writer that passes their answers on in blocks.
//! What names no manual page is our own choice.
#![tactic(auto)]

mod block_reader;
mod block_writer;
mod fault;
mod line_reader;
mod lines;
mod link_words;
mod words;

pub use block_writer::BlockWriter;
pub use fault::WordsFault;
pub use line_reader::{LineReader, Stop};
pub use lines::Line;
pub use words::{Call, parse};
