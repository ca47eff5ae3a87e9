//! What is around a program: its arguments, its files and its standard streams; and what the programs beside `v7` share.
//! What names no manual page is our own choice.
//!
//! Types:
//!
//! - `FileSystem`, `Stored`: what opens and stores the files of a program, and what became of a file
//! - `Disk`: the files of the system, as a `FileSystem`
//! - `Folders`, `Folder`, `DiskFolders`: what says what a folder has; the folders of the system
//! - `Walked`, `Special`: a path that a walk found, and what is not read
//! - `PathFault`: that the system did not do what it was asked at a path
//! - `Outputs`, `StandardError`: where a program writes
//! - `Answer`, `Fault`: what a program writes at its end with its status, and why it does not go on
//! - `Given`, `Reason`: what the arguments give, and why they are refused
//! - `Path`: a path as it is shown
//! - `Shown`, `VERSION`: what a program shows of itself, and the version of v7
//! - `Node`, `Found`, `Nodes`: a file of the system; what a path leads to, and what those of an input and of its output lead to
//!
//! Functions:
//!
//! - `words`, `readable_words`: the arguments of a program; with one that is not UTF-8 the second gives the reason to refuse it
//! - `walk_all`: the files in folders and in those below them
//! - `given_in`: the letters of options in the arguments, their values, and paths; or why the arguments are refused
//! - `hold_streams`: keeps files from the descriptors of closed standard streams
//! - `end`: the status of a program that ended, or could not begin
//! - `read_whole`, `read_front`: all bytes of a file, and so many from its beginning
//! - `store_on`, `store_text_on`: stores a file, or a text, on a device
//! - `stored_text`: what is said of a file that was not stored
//! - `nodes_at`, `is_refused`, `check_output`, `refused_output`: what paths lead to; whether an output may be one of the inputs, and refuses it
//! - `shown_in`, `show`: what the arguments ask a program to show of itself; shows it
//! - `refuse`: says why arguments are refused
//! - `error_answer`, `fault_at`, `refused_answer`, `shown_answer`, `answer_stored`: answers
//! - `give`: writes an answer
//! - `outputs_of`: the standard streams of a runtime
//!
//! Only tested: in which words a program speaks of faults and of itself, and which files are in folders.
#![tactic(auto)]

mod answer;
mod arguments;
mod disk;
mod disk_folders;
mod file_system;
mod folders;
mod given;
mod held;
mod nodes;
mod outputs;
mod path_fault;
mod paths;
mod pieces;
mod reasons;
mod shown;
mod sources;
mod standard_error;

pub use answer::{Answer, Fault, answer_stored, error_answer, fault_at, give, refused_answer};
pub use arguments::{readable_words, words};
pub use disk::{Disk, store_on, store_text_on};
pub use disk_folders::DiskFolders;
pub use file_system::{FileSystem, Stored, stored_text};
pub use folders::{Folder, Folders, Special, Walked, walk_all};
pub use given::{Given, given_in};
pub use held::{end, hold_streams};
pub use nodes::{Found, Node, Nodes, check_output, is_refused, nodes_at, refused_output};
pub use outputs::Outputs;
pub use path_fault::PathFault;
pub use paths::Path;
pub use reasons::Reason;
pub use shown::{Shown, VERSION, outputs_of, refuse, show, shown_answer, shown_in};
pub use sources::{read_front, read_whole};
pub use standard_error::StandardError;
