//! Links of bytes in memory, and devices that fail at each place of an input, or when they are flushed.
use crate::fixtures::{TWO_OBJECTS, plain, wires};
use aout_core::samples::{A_O, B_O, C_O, Failing, TestReader, TestWriter};
use aout_core::{File, ReadFault, Wire, read_file};
use host::{Stored, store_on, store_text_on};
use link_out::{Keep, Linked};
use link_session::Forced;
use std::alloc::{AllocError, Global};
use std::io::ErrorKind;
use std::test::Fail;
use v7tools::{CliFault, ld};

/// The link of bytes in memory, each with its path, without options but those that say which symbols are kept.
pub fn link(alloc: Global, inputs: &[(&str, &[u8])], keep: Keep) -> Result<Linked, CliFault> {
    let inputs = wires(alloc, inputs)?;
    ld(alloc, inputs, &Forced::none(), &plain(keep))
}

/// `c.o` on a reader that fails after so many bytes.
fn failing_reader(place: usize, kind: ErrorKind) -> Wire<TestReader<'static>> {
    Wire::new(TestReader::new(&C_O, usize::MAX, place, kind))
}

/// Whether a read of `c.o` answers that its device failed.
fn fails_to_read(alloc: Global, place: usize, kind: ErrorKind) -> bool {
    let mut reader = failing_reader(place, kind);
    matches!(read_file(alloc, &mut reader), Err(ReadFault::Device(_)))
}

/// Whether this fault says that the device of `c.o` failed.
fn is_device_fault(fault: CliFault) -> bool {
    match fault {
        CliFault::BadFile(path, ReadFault::Device(_)) => path.as_str() == "c.o",
        _ => false,
    }
}

/// Whether a link of `c.o` answers that its device failed.
fn fails_to_link(alloc: Global, place: usize, kind: ErrorKind) -> Result<bool, AllocError> {
    let path = String::from_str(alloc, "c.o")?;
    let inputs = vec![in alloc; (path, failing_reader(place, kind))]?;
    match ld(alloc, inputs, &Forced::none(), &plain(Keep::All)) {
        Ok(_) => Ok(false),
        Err(fault) => Ok(is_device_fault(fault)),
    }
}

#[test]
fn reader_fails_everywhere(rt: HostRuntime) -> Result<(), Fail> {
    let alloc = rt.alloc();
    for place in 0..48 {
        for kind in [ErrorKind::Other, ErrorKind::Interrupted] {
            let is_reported = fails_to_read(alloc, place, kind)
                && fails_to_link(alloc, place, kind)?;
            assert!(rt; is_reported, "{place} bytes");
        }
    }
    Ok(())
}

/// How a writer can fail.
pub static FAILURES: [Failing; 3] = [
    Failing::Fails(ErrorKind::Other),
    Failing::Fails(ErrorKind::Interrupted),
    Failing::TakesNothing,
];

/// A writer into memory that fails after so many bytes.
pub fn failing_writer(alloc: Global, place: usize, failing: Failing) -> Wire<TestWriter> {
    Wire::new(TestWriter::new(Vec::new(alloc), usize::MAX, place, failing))
}

/// A writer into memory that does not fail.
pub fn in_memory(alloc: Global) -> Wire<TestWriter> {
    Wire::new(TestWriter::whole(Vec::new(alloc)))
}

/// Whether a file is not stored after so many bytes of these.
fn fails_to_store(
    alloc: Global,
    file: &File,
    place: usize,
    failing: Failing,
    bytes: &[u8],
) -> bool {
    let mut out = failing_writer(alloc, place, failing);
    let is_reported = matches!(store_on(file, &mut out), Stored::Failed(_)) && out.failed();
    is_reported && Some(out.into_inner().taken()) == bytes.get(..place)
}

/// Whether a file, and a text, are not stored on a device that takes all and then fails to be flushed.
fn fails_to_flush(alloc: Global, file: &File, failing: Failing) -> bool {
    let mut out = failing_writer(alloc, 2, failing);
    fails_to_store(alloc, file, TWO_OBJECTS.len(), failing, &TWO_OBJECTS)
        && matches!(store_text_on(b"ab", &mut out), Stored::Failed(_))
        && out.into_inner().taken() == b"ab".as_slice()
}

/// Whether a file, and a text, are stored on a device that is then flushed once.
fn stores(alloc: Global, file: &File) -> bool {
    let mut one = in_memory(alloc);
    let mut other = in_memory(alloc);
    let are_kept = store_on(file, &mut one) == Stored::Kept
        && store_text_on(b"ab", &mut other) == Stored::Kept;
    are_kept && one.into_inner().flushes() == 1 && other.into_inner().flushes() == 1
}

#[test]
fn stored_files_are_flushed(rt: HostRuntime) -> Result<(), Fail> {
    let alloc = rt.alloc();
    let linked = link(alloc, &[("a.o", &A_O), ("b.o", &B_O)], Keep::Nothing)?;
    for kind in [ErrorKind::Other, ErrorKind::Interrupted] {
        assert!(rt; fails_to_flush(alloc, &linked.file, Failing::Fails(kind)));
    }
    assert!(rt; stores(alloc, &linked.file));
    Ok(())
}
