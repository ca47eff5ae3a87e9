//! What `emit` writes, also to devices that fail at each place of the file and of the report.
use crate::fixtures::{TWO_OBJECTS, UNDEFINED};
use crate::links::{FAILURES, failing_writer, in_memory, link};
use aout_core::samples::{A_O, B_O, C_O, Failing, G_O};
use link_out::{Keep, Linked};
use std::alloc::Global;
use std::test::Fail;
use v7tools::{CliFault, emit};

/// Whether a link without a report is written with no latch on.
fn is_written(alloc: Global, linked: &Linked, bytes: &[u8]) -> bool {
    let mut file = in_memory(alloc);
    let mut report = in_memory(alloc);
    let is_done = matches!(emit(linked, &mut file, &mut report), Ok(0));
    let is_latched = file.failed() || report.failed();
    let file = file.into_inner();
    let report = report.into_inner();
    is_done && !is_latched && file.taken() == bytes && report.calls() == 0
}

#[test]
fn latch_without_error(rt: HostRuntime) -> Result<(), Fail> {
    let linked = link(rt.alloc(), &[("a.o", &A_O), ("b.o", &B_O)], Keep::Nothing)?;
    assert!(rt; is_written(rt.alloc(), &linked, &TWO_OBJECTS));
    Ok(())
}

/// Whether a link is not written after so many bytes of its file, and nothing is reported.
fn fails_to_write(
    alloc: Global,
    linked: &Linked,
    place: usize,
    failing: Failing,
    bytes: &[u8],
) -> bool {
    let mut file = failing_writer(alloc, place, failing);
    let mut report = in_memory(alloc);
    let is_reported = matches!(
        emit(linked, &mut file, &mut report),
        Err(CliFault::WriteFailed(_))
    );
    let is_latched = file.failed() && !report.failed();
    is_reported
        && is_latched
        && Some(file.into_inner().taken()) == bytes.get(..place)
        && report.into_inner().calls() == 0
}

#[test]
fn writer_fails_everywhere(rt: HostRuntime) -> Result<(), Fail> {
    let linked = link(rt.alloc(), &[("a.o", &A_O), ("b.o", &B_O)], Keep::Nothing)?;
    for place in 0..24 {
        for failing in FAILURES {
            assert!(rt;
                fails_to_write(rt.alloc(), &linked, place, failing, &TWO_OBJECTS),
                "{place} bytes"
            );
        }
    }
    Ok(())
}

/// What is reported of `c.o` and `g.o`.
static REPORT: &[u8] = b"Undefined:\n_f\n_g\n";

/// Whether a link is written, but only so many bytes of its report.
fn fails_to_report(alloc: Global, linked: &Linked, place: usize, failing: Failing) -> bool {
    let mut file = in_memory(alloc);
    let mut report = failing_writer(alloc, place, failing);
    let is_reported = matches!(
        emit(linked, &mut file, &mut report),
        Err(CliFault::WriteFailed(_))
    );
    let is_latched = report.failed() && !file.failed();
    is_reported
        && is_latched
        && file.into_inner().taken() == UNDEFINED.as_slice()
        && Some(report.into_inner().taken()) == REPORT.get(..place)
}

#[test]
fn report_fails_everywhere(rt: HostRuntime) -> Result<(), Fail> {
    let linked = link(rt.alloc(), &[("c.o", &C_O), ("g.o", &G_O)], Keep::All)?;
    for place in 0..REPORT.len() {
        for failing in FAILURES {
            assert!(rt;
                fails_to_report(rt.alloc(), &linked, place, failing),
                "{place} bytes"
            );
        }
    }
    Ok(())
}
