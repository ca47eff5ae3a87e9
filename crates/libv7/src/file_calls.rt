//! What is said of one file that comes as bytes.
ghost use Rattle.std.specs.Prelude.{◌≡◌, ◌≢◌, ◌∷◌, [], Ok, Err, IsOk, IfOk, IfErr};
ghost use Rattle.aout_core.specs.Refusals.{refused};
ghost use Rattle.symtools.specs.{NmLists.nm_text, SizeLines.size_text};
ghost use Rattle.libv7.specs.declared.cause.Cause.TheVariants.{Memory};
ghost use Rattle.libv7.specs.{FileAnswers.{checked_in, names_in, sizes_in, stripped_in}, MemoryWanted.HasBody};

use crate::cause::Cause;
use crate::decoding::{first_file, first_object};
use crate::encoding::{bytes_of, taken};
use crate::requests::nm_options;
use aout_core::{File, Wire, strip_file};
use checks::FilePlaces;
use std::alloc::{AllocError, Global};
use symtools::{NmOptions, nm, size};

/// Checks that the bytes begin with an object, and returns how many bytes it takes. What is after it is not looked at.
/// (a.out(5))
///
/// Errors: `BadFile`, 11 to 14, if the bytes do not begin with a file; `BadObject`, 21 to 24, if it is not an object;
/// `Memory`, 50, if memory runs out for a whole file that has more than its header.
pub fn check(alloc: Global, bytes: &[u8]) -> Result<usize, Cause>
    ensures ok { IfOk result (λ count. checked_in bytes.now ≡ Ok count) }
    ensures err { IfErr result (λ cause. cause ≢ Memory refused → checked_in bytes.now ≡ Err cause) }
    ensures memory { IfErr result (λ cause. cause ≡ Memory refused → HasBody bytes.now) }
{
    let object = first_object(alloc, bytes)?;
    Ok(FilePlaces::of(object.file().header()).end)
}

/// The bytes of the file that the bytes begin with, without relocation and symbols. What is after it is not looked at.
/// (strip(1))
///
/// Errors: `BadFile`, 11 to 14, if the bytes do not begin with a file; else `Memory`, 50, if memory runs out.
pub fn strip(alloc: Global, bytes: &[u8]) -> Result<Vec<u8>, Cause>
    ensures ok { IfOk result (λ written. stripped_in bytes.now ≡ Ok written.items) }
    ensures err { IfErr result (λ cause. cause ≢ Memory refused → stripped_in bytes.now ≡ Err cause) }
    ensures memory { IfErr result (λ cause. cause ≡ Memory refused → IsOk (stripped_in bytes.now)) }
{
    let file = first_file(alloc, bytes)?;
    Ok(bytes_of(alloc, &strip_file(file))?)
}

/// The line of size for a file without a path.
#[tactic(auto, using(crate::proofs::EncodingLemmas::sizes_written))]
fn sizes_of(alloc: Global, file: File) -> Result<Vec<u8>, AllocError>
    ensures { IfOk result (λ text. text.items ≡ size_text (([], file) ∷ [])) }
{
    let files = [(String::new(alloc), file)];
    let mut wire = Wire::new(Vec::new(alloc));
    let written = size(&files, &mut wire);
    taken(wire, written)
}

/// The line of size, without a path, of the file that the bytes begin with. (size(1))
///
/// Errors: `BadFile`, 11 to 14, if the bytes do not begin with a file; else `Memory`, 50, if memory runs out.
pub fn show_sizes(alloc: Global, bytes: &[u8]) -> Result<Vec<u8>, Cause>
    ensures ok { IfOk result (λ text. sizes_in bytes.now ≡ Ok text.items) }
    ensures err { IfErr result (λ cause. cause ≢ Memory refused → sizes_in bytes.now ≡ Err cause) }
    ensures memory { IfErr result (λ cause. cause ≡ Memory refused → IsOk (sizes_in bytes.now)) }
{
    let file = first_file(alloc, bytes)?;
    Ok(sizes_of(alloc, file)?)
}

/// The lines of nm for a file without a path.
#[tactic(auto, using(crate::proofs::EncodingLemmas::names_written))]
fn names_of(alloc: Global, options: NmOptions, file: File) -> Result<Vec<u8>, AllocError>
    ensures { IfOk result (λ text. text.items ≡ nm_text options (([], file) ∷ [])) }
{
    let files = [(String::new(alloc), file)];
    let mut wire = Wire::new(Vec::new(alloc));
    let written = nm(alloc, &files, options, &mut wire);
    taken(wire, written)
}

/// The lines of nm, without a path, of the file that the bytes begin with. The options are bits: 1 for `-g`, 2 `-n`,
/// 4 `-p`, 8 `-r`, 16 `-u`. (nm(1))
///
/// Errors, the first that applies: `NoOption`, 1, if a bit is not an option; `BadFile`, 11 to 14, if the bytes do not
/// begin with a file; `Memory`, 50, if memory runs out.
pub fn list_symbols(alloc: Global, options: u32, bytes: &[u8]) -> Result<Vec<u8>, Cause>
    ensures ok { IfOk result (λ text. names_in options bytes.now ≡ Ok text.items) }
    ensures err { IfErr result (λ cause. cause ≢ Memory refused → names_in options bytes.now ≡ Err cause) }
    ensures memory { IfErr result (λ cause. cause ≡ Memory refused → IsOk (names_in options bytes.now)) }
{
    let choices = nm_options(options)?;
    let file = first_file(alloc, bytes)?;
    Ok(names_of(alloc, choices, file)?)
}
