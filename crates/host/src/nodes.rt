//! Files to which paths lead. An output that is one of the inputs is refused by what it is, and not by its name.
ghost use Rattle.std.specs.Prelude.{◌≡◌, ◌∷◌, [], true};
ghost use Rattle.host.specs.{Answers.Stops, Events.Extends, Nodes.{ChecksOutput, has_input, is_node, is_refused, looks}};

use crate::answer::{Fault, fault_at};
use crate::file_system::{FileSystem, NOT_CREATED};
use crate::path_fault::PathFault;
use aout_core::FileFault;
use std::alloc::Global;

/// A regular file, as the system numbers it: its device, and its number on that device.
#[derive(Clone, Copy)]
pub struct Node {
    /// The device.
    pub device: u64,
    /// The number on the device.
    pub number: u64,
}

/// What a path leads to.
#[derive(Clone, Copy)]
pub enum Found {
    /// A regular file.
    File(Node),
    /// No file, or one of another kind, of which nothing is lost if it is written to.
    NoFile,
    /// The system does not say.
    Unknown(PathFault),
}

/// What the paths of an input and of its output lead to.
#[derive(Clone, Copy)]
pub struct Nodes {
    pub input: Found,
    /// What the output would replace.
    pub output: Found,
}

/// Whether a path leads to a file.
fn is_node(node: Node, found: Found) -> bool
    ensures { result ≡ is_node node found }
{
    match found {
        Found::File(other) => node.device == other.device && node.number == other.number,
        _ => false,
    }
}

fn has_input(found: &[Nodes], output: Node) -> bool
    ensures { result ≡ has_input found.now output }
{
    found.iter().any(|nodes| is_node(output, nodes.input))
}

/// Whether an output is refused: it is one of the inputs, or the system does not say what its path or that of its input leads to.
pub fn is_refused(found: &[Nodes], nodes: Nodes) -> bool
    ensures { result ≡ is_refused found.now nodes }
{
    match (nodes.input, nodes.output) {
        (Found::Unknown(_), _) | (_, Found::Unknown(_)) => true,
        (_, Found::File(output)) => has_input(found, output),
        _ => false,
    }
}

/// What the paths of an input and of its output lead to.
pub fn nodes_at<O: FileSystem>(file_system: &mut O, input: &str, output: &str) -> Nodes
    ensures { Extends (O.history file_system.old) (O.history file_system.new)
        (looks input.now output.now result) }
{
    let input = file_system.node(input);
    let output = file_system.node(output);
    Nodes { input, output }
}

/// The fault of an output that is refused, with the paths of its input and of itself.
pub fn refused_output(
    alloc: Global,
    program: &str,
    input: &str,
    output: &str,
    nodes: Nodes,
) -> Fault
    ensures { Stops true 2 result }
{
    match (nodes.input, nodes.output) {
        (Found::Unknown(_), _) => fault_at(alloc, program, input, FileFault::NotOpened),
        (_, Found::Unknown(_)) => fault_at(alloc, program, output, NOT_CREATED),
        _ => fault_at(alloc, program, output, "the output is one of the inputs"),
    }
}

/// Checks that the output of a program is known not to be its one input.
///
/// Errors: `Answered` if it is not known; `Memory` if memory runs out.
pub fn check_output<O: FileSystem>(
    alloc: Global,
    file_system: &mut O,
    program: &str,
    input: &str,
    output: &str,
) -> Result<(), Fault>
    ensures { ChecksOutput input.now output.now
        (O.history file_system.old) (O.history file_system.new) result }
{
    let nodes = nodes_at(file_system, input, output);
    if is_refused(&[nodes], nodes) {
        return Err(refused_output(alloc, program, input, output, nodes));
    }
    Ok(())
}
