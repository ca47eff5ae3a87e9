//! Tests that need several crates, and that no case can show: devices that fail and how often they are called, texts of faults, and
//! the calls below the commands; and what these share.
#![tactic(auto)]

#[cfg(test)]
mod answers;
#[cfg(test)]
mod block_writes;
#[cfg(test)]
mod disk;
#[cfg(test)]
mod emitting;
#[cfg(test)]
mod fault_texts;
#[cfg(test)]
mod faults;
pub mod fixtures;
#[cfg(test)]
mod links;
#[cfg(test)]
mod lists;
#[cfg(test)]
mod memory_file_system;
#[cfg(test)]
mod pieces;
#[cfg(test)]
mod runs;
#[cfg(test)]
mod script_calls;
#[cfg(test)]
mod standard_error;
#[cfg(test)]
mod steps;
#[cfg(test)]
mod wires;
