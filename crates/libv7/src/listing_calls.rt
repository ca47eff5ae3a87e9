//! Listings: that of a file, and the file of one.
ghost use Rattle.std.specs.Prelude.{◌≡◌, ◌≢◌, Ok, Err, IsOk, IfOk, IfErr};
ghost use Rattle.aout_core.specs.Refusals.{refused};
ghost use Rattle.link_out.specs.Steps.{refused_as};
ghost use Rattle.listings.specs.{MemoryWanted.ListingMayRunOut, Reading.read, declared.draft.Addresses.TheVariants.Compared};
ghost use Rattle.libv7.specs.declared.cause.Cause.TheVariants.{Memory};
ghost use Rattle.libv7.specs.{Causes.first_mistake, FileAnswers.{IsTextOf, file_in}, ListingAnswers.{DescribedMayRunOut, IsListingOf, described_in}};

use crate::cause::{Cause, Refusal};
use crate::decoding::first_file;
use crate::encoding::bytes_of;
use aout_core::File;
use disassemblies::{Sweep, write_explained};
use listings::{Addresses, ListingFault, read_listing};
use std::alloc::{AllocError, Global};

/// The listing of a file with explanations, and without notes.
fn listing_of(alloc: Global, file: &File) -> Result<Vec<u8>, AllocError>
    ensures { IfOk result (λ text. IsListingOf file.now text.items) }
{
    let sweep = Sweep::new(alloc, file)?;
    write_explained(alloc, &sweep, &[], &[])
}

/// The listing of the file that the bytes begin with, as v7-explain(1) prints it but for the lines that begin with a slash.
/// `from_listing` gives the bytes of the file again. What is after the file is not looked at.
///
/// Errors: `BadFile`, 11 to 14, if the bytes do not begin with a file; else `Memory`, 50, if memory runs out.
pub fn list_file(alloc: Global, bytes: &[u8]) -> Result<Vec<u8>, Cause>
    ensures ok { IfOk result (λ text. IsTextOf IsListingOf (file_in bytes.now) text.items) }
    ensures err { IfErr result (λ cause. cause ≢ Memory refused → file_in bytes.now ≡ Err cause) }
    ensures memory { IfErr result (λ cause. cause ≡ Memory refused → IsOk (file_in bytes.now)) }
{
    let file = first_file(alloc, bytes)?;
    Ok(listing_of(alloc, &file)?)
}

fn file_described(alloc: Global, text: &[u8]) -> Result<File, Refusal>
    ensures ok { IfOk result (λ file. refused_as first_mistake (read Compared text.now) ≡ Ok file) }
    ensures err { IfErr result (λ r.
        r.cause ≢ Memory refused → refused_as first_mistake (read Compared text.now) ≡ Err r) }
    ensures memory { IfErr result (λ r.
        r.cause ≡ Memory refused → (r.place ≡ 0) × ListingMayRunOut Compared text.now) }
{
    match read_listing(alloc, Addresses::Compared, text) {
        Ok(file) => Ok(file),
        Err(ListingFault::Memory(refused)) => Err(Refusal::from(refused)),
        Err(ListingFault::Wrong(mistakes)) => Err(Refusal {
            cause: Cause::BadListing(mistakes.first),
            place: mistakes.first.line,
        }),
    }
}

/// The bytes of the file that a listing describes.
///
/// Errors: `BadListing`, 61 to 80, for the first mistake, with its line as the place; `Memory`, 50, if memory runs out for a word, a
/// symbol, a mistake after the first, or the file.
pub fn from_listing(alloc: Global, text: &[u8]) -> Result<Vec<u8>, Refusal>
    ensures ok { IfOk result (λ written. described_in text.now ≡ Ok written.items) }
    ensures err { IfErr result (λ r. r.cause ≢ Memory refused → described_in text.now ≡ Err r) }
    ensures memory { IfErr result (λ r. r.cause ≡ Memory refused → DescribedMayRunOut text.now r.place) }
{
    let file = file_described(alloc, text)?;
    Ok(bytes_of(alloc, &file)?)
}
