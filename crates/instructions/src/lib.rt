//! Decodes words of text into instructions and the text of the Seventh Edition's assembler, and encodes them again.
//! What names no manual page is our own choice.
//!
//! ```rust
//! use instructions::decode;
//!
//! let line = decode(words, 0);
//! line.put_text(address, text);
//! &words[line.length()..]
//! ```
//!
//! Types:
//!
//! - `Line`, `Words`: a line of text, an instruction or a plain word, and its one to three words
//! - `Lines`: the lines of a list of words, an iterator
//! - `Instruction`, `Operation`: what a first word means, and the operation of a row
//! - `Operand`, `Mode`, `Addressing`, `Register`: an operand, its mode, how it uses its word, and its register
//! - `Row`, `Field`: a row of the table, and a field of its first words
//! - `Decoder`, `UnixLine`: whether system calls have their arguments on their lines, and a line that may be such a call
//! - `SystemCall`, `CallRow`: a system call, and its row of the table of calls
//! - `Reference`, `References`: a name and an offset, and those that a line shows in place of numbers
//!
//! Functions:
//!
//! - `decode`: the line at a place of a list of words
//! - `encode`: the words of a line
//! - `decode_by`: the line at a place, with the arguments of system calls if the decoder knows them
//! - `call_of`: the system call that a first word makes
//! - `put_argument`: appends an argument of a call
//! - `row_of`: the row of the table that a first word is in
//! - `is_relocated`: whether a word is relocated, by its relocation word
//! - `branch_target`, `branch_back_target`: the address that a branch or `sob` goes to
//! - `put_assembly_name`: appends a name as the assembler has it
//!
//! Tables and modules:
//!
//! - `ROWS`: the table of instructions
//! - `CALLS`: the table of system calls
//! - `laws`: theorems about all lists of words
//!
//! Addresses are in bytes and modulo 65,536, and each number in a text is octal.
#![tactic(auto)]

mod call;
mod call_table;
mod field;
mod instruction;
pub mod laws;
mod line;
mod mode;
mod operand;
mod operation;
mod reference;
mod relocated;
mod row;
mod table;
mod text;
mod unix;
mod whole;

pub use call::SystemCall;
pub use call_table::{CALLS, CallRow};
pub use field::Field;
pub use instruction::Instruction;
pub use line::{Line, Words, decode, encode};
pub use mode::{Addressing, Mode, Register};
pub use operand::Operand;
pub use operation::Operation;
pub use reference::{Reference, References, put_assembly_name};
pub use relocated::is_relocated;
pub use row::row_of;
pub use table::{ROWS, Row};
pub use text::{branch_back_target, branch_target};
pub use unix::{Decoder, UnixLine, call_of, decode_by, put_argument};
pub use whole::Lines;
