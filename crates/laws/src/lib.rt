//! Theorems about links, loaded programs and commands. They are about definitions, and not about code. `link_out::laws` has `strip_law`
//! and `partial_law`.
//! What names no manual page is our own choice.
//!
//! - `relation`: a link gives a file and a report if and only if the relation of linking holds of them
//! - `links`: what the instructions of a loaded program are
//! - `commands`: what a session answers and stores, line by line, that adding and withdrawing leave no trace, and what builds store
//!
//! In `proofs/examples`: wrong results that pass all clauses of the relation but one, an instance of each law, and the law without a
//! premise, which is false.
#![tactic(auto)]

pub mod commands;
pub mod links;
pub mod relation;
