//! Wires whose device fails once and is then left alone, and what they pass on with no failure.
use aout_core::Wire;
use aout_core::samples::{Failing, TestReader, TestWriter};
use std::alloc::Global;
use std::io::ErrorKind;

/// Failures that another program might take for no failure at all.
static PASSING: [ErrorKind; 3] = [
    ErrorKind::Interrupted,
    ErrorKind::WouldBlock,
    ErrorKind::TimedOut,
];

/// Whether a read that fails so turns the latch on, and the device was called once.
fn is_read_once(kind: ErrorKind) -> bool {
    let mut wire = Wire::new(TestReader::new(b"ab", 1, 0, kind));
    let mut buffer = [0; 2];
    let is_latched = wire.read(&mut buffer).is_err() && wire.failed();
    let is_refused = wire.read(&mut buffer).is_err() && wire.read(&mut []).is_err();
    let reader = wire.into_inner();
    is_latched && is_refused && reader.calls() == 1 && reader.left().len() == 2
}

#[test]
fn failed_reads_are_latched(rt: HostRuntime) {
    for kind in PASSING {
        assert!(rt; is_read_once(kind));
    }
}

/// A wire whose writer fails so from its first byte on.
fn failing(alloc: Global, kind: ErrorKind) -> Wire<TestWriter> {
    Wire::new(TestWriter::new(Vec::new(alloc), 1, 0, Failing::Fails(kind)))
}

/// Whether a wire takes neither bytes nor a flush, and its writer was so often written to and flushed.
fn is_left_alone(mut wire: Wire<TestWriter>, calls: u32, flushes: u32) -> bool {
    let is_refused = wire.failed() && wire.put(b"ab").is_err() && wire.flush().is_err();
    let writer = wire.into_inner();
    is_refused
        && writer.calls() == calls
        && writer.flushes() == flushes
        && writer.taken().is_empty()
}

/// Whether a write that fails so turns the latch on, and the device was called once.
fn is_written_once(alloc: Global, kind: ErrorKind) -> bool {
    let mut wire = failing(alloc, kind);
    wire.put(b"ab").is_err() && is_left_alone(wire, 1, 0)
}

/// Whether a flush that fails so turns the latch on, and the device was called once.
fn is_flushed_once(alloc: Global, kind: ErrorKind) -> bool {
    let mut wire = failing(alloc, kind);
    wire.flush().is_err() && is_left_alone(wire, 0, 1)
}

#[test]
fn failed_writes_and_flushes_are_latched(rt: HostRuntime) {
    for kind in PASSING {
        assert!(rt; is_written_once(rt.alloc(), kind));
        assert!(rt; is_flushed_once(rt.alloc(), kind));
    }
}

/// Whether a read without room takes nothing and does not fail, and the next one has the bytes.
fn reads_after_no_bytes() -> bool {
    let mut wire = Wire::new(TestReader::whole(b"ab"));
    let mut buffer = [0; 4];
    let is_nothing = wire.read(&mut []).ok() == Some(0) && !wire.failed();
    is_nothing && wire.read(&mut buffer).ok() == Some(2) && buffer == [b'a', b'b', 0, 0]
}

#[test]
fn read_of_no_bytes(rt: HostRuntime) {
    assert!(rt; reads_after_no_bytes());
}
