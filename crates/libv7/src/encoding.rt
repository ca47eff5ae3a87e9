//! The bytes of a file, and the lines of a report, as a writer in memory takes them.
ghost use Rattle.std.specs.Prelude.{◌≡◌, ◌≤◌, length, IfOk, IsOk};
ghost use Rattle.aout_core.specs.Encoding.{encoding};
ghost use Rattle.link_out.specs.{Outcomes.report_names, function.Reports.report_text};

use aout_core::{File, Wire, write_file};
use link_out::Report;
use std::alloc::{AllocError, Global};

/// What a writer in memory took, if it took all. It fails only where memory is refused.
pub(crate) fn taken<E: Drop>(
    wire: Wire<Vec<u8>>,
    written: Result<(), E>,
) -> Result<Vec<u8>, AllocError>
    ensures { IfOk result (λ bytes. IsOk written × (bytes ≡ wire.device)) }
{
    match written {
        Ok(()) => Ok(wire.into_inner()),
        Err(_) => Err(AllocError),
    }
}

/// The bytes of a file of this size.
#[tactic(auto, using(crate::proofs::EncodingLemmas::all_written))]
fn encoded(alloc: Global, file: &File, size: usize) -> Result<Vec<u8>, AllocError>
    ensures { IfOk result (λ written. written.items ≡ encoding file.now) }
{
    let mut wire = Wire::new(Vec::with_capacity(alloc, size)?);
    let written = write_file(file, &mut wire);
    taken(wire, written)
}

pub(crate) fn bytes_of(alloc: Global, file: &File) -> Result<Vec<u8>, AllocError>
    ensures value { IfOk result (λ written. written.items ≡ encoding file.now) }
    ensures most { IfOk result (λ written. length written.items ≤ 327684) }
{
    let words = file.text_words().len() + file.data_words().len();
    let relocs = file.text_reloc().len() + file.data_reloc().len();
    let size = 16 + 2 * (words + relocs) + 12 * file.symbols().len();
    encoded(alloc, file, size)
}

#[tactic(auto, using(crate::proofs::EncodingLemmas::all_written))]
pub(crate) fn lines_of(alloc: Global, report: &Report) -> Result<Vec<u8>, AllocError>
    ensures { IfOk result (λ lines. lines.items ≡ report_text (report_names report.now)) }
{
    let mut wire = Wire::new(Vec::new(alloc));
    let written = report.write(&mut wire);
    taken(wire, written)
}
