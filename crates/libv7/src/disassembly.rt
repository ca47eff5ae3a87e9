//! Words as instructions: those of the text of a file, and words alone.
ghost use Rattle.std.specs.Prelude.{◌≡◌, ◌≢◌, [], Err, IsOk, IfOk, IfErr};
ghost use Rattle.aout_core.specs.Refusals.{refused};
ghost use Rattle.libv7.specs.{FileAnswers.{IsAny, IsTextOf, file_in}, declared.cause.Cause.TheVariants.Memory};

use crate::cause::Cause;
use crate::decoding::first_file;
use disassemblies::{put_disassembly, put_plain_disassembly};
use instructions::Decoder;
use std::alloc::Global;
use texts::Text;

/// The text of the file that the bytes begin with as instructions, with names and labels, as
/// `disassemblies::put_disassembly` shows it. What is after the file is not looked at. (as(1))
///
/// Errors: `BadFile`, 11 to 14, if the bytes do not begin with a file; else `Memory`, 50, if memory runs out.
pub fn disassemble(alloc: Global, bytes: &[u8]) -> Result<Vec<u8>, Cause>
    ensures ok { IfOk result (λ text. IsTextOf IsAny (file_in bytes.now) text.items) }
    ensures err { IfErr result (λ cause. cause ≢ Memory refused → file_in bytes.now ≡ Err cause) }
    ensures memory { IfErr result (λ cause. cause ≡ Memory refused → IsOk (file_in bytes.now)) }
{
    let file = first_file(alloc, bytes)?;
    let mut text = Text::new(alloc);
    put_disassembly(&mut text, Decoder::Pdp11, &file);
    Ok(text.finish()?)
}

/// These words as instructions, the first of them at this address, without names, as
/// `disassemblies::put_plain_disassembly` shows them. (as(1))
///
/// An error: `Memory`, 50, if there are words and memory runs out.
pub fn disassemble_words(alloc: Global, address: u16, words: &[u16]) -> Result<Vec<u8>, Cause>
    ensures err { IfErr result (λ cause. cause ≡ Memory refused) }
    ensures memory { IfErr result (λ cause. cause ≡ Memory refused → words.now ≢ []) }
{
    let mut text = Text::new(alloc);
    put_plain_disassembly(&mut text, address, words);
    Ok(text.finish()?)
}
