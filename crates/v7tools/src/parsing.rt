//! The arguments of a command, for the program.
ghost use Rattle.std.specs.Prelude.{◌≡◌, IfErr, IfOk, map, string_bytes};
ghost use Rattle.command_words.specs.Calls.{IsAsked, IsWhole, dashes_in, files_of};
ghost use Rattle.v7tools.specs.Calls.{IsOfWords};

use crate::fault::CliFault;
use command_words::Call;
use std::alloc::Global;

/// What the words after the program's name ask for: `command_words::parse` has the rules.
///
/// Errors: `Usage`, 1, if they ask for nothing that there is; `Memory`, 9, if memory runs out.
pub fn parse(alloc: Global, words: Vec<String>) -> Result<Call, CliFault>
    ensures whole { IfOk result IsWhole }
    ensures asked { IfOk result (IsAsked (map string_bytes words.items)) }
    ensures dashes { IfOk result (λ call.
        dashes_in (map string_bytes words.items) ≡ dashes_in (files_of call)) }
    ensures none { IfErr result (IsOfWords (map string_bytes words.items)) }
{
    Ok(command_words::parse(alloc, words)?)
}
