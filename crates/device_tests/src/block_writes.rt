//! How often a writer in blocks calls its device, and what a device that fails has taken.

use aout_core::samples::{Failing, TestWriter};
use aout_core::{DeviceFault, Wire};
use std::alloc::Global;
use std::io::ErrorKind;
use std::test::Fail;
use v7tools::BlockWriter;

/// A text of so many bytes, no two of which beside each other are the same.
fn text(alloc: Global, length: usize) -> Result<Vec<u8>, Fail> {
    let mut bytes = Vec::with_capacity(alloc, length)?;
    for i in 0..length {
        bytes.push((i % 251) as u8)?;
    }
    Ok(bytes)
}

/// Writes a text in lines of ten bytes through blocks, and flushes them.
fn put_lines(bytes: &[u8], device: &mut TestWriter) -> Result<(), DeviceFault> {
    let mut out = Wire::new(BlockWriter::new(device));
    for line in bytes.chunks(10) {
        out.put(line)?;
    }
    out.flush()
}

/// How often a device that takes all it is given is written to, if it then has this text, and was flushed once.
fn calls(alloc: Global, bytes: &[u8]) -> Option<u32> {
    let mut device = TestWriter::whole(Vec::new(alloc));
    let is_put = put_lines(bytes, &mut device).is_ok();
    if is_put && device.taken() == bytes && device.flushes() == 1 {
        Some(device.calls())
    } else {
        None
    }
}

#[test]
fn lines_go_out_in_blocks(rt: HostRuntime) -> Result<(), Fail> {
    for length in 0..1_100u16 {
        let bytes = text(rt.alloc(), usize::from(length))?;
        let times = u32::from(length).div_ceil(512);
        assert!(rt; calls(rt.alloc(), &bytes) == Some(times), "{length} bytes");
    }
    Ok(())
}

/// Whether a device that takes seven bytes a call has the whole text.
fn takes_in_pieces(alloc: Global, bytes: &[u8]) -> bool {
    let fails = Failing::Fails(ErrorKind::Other);
    let mut device = TestWriter::new(Vec::new(alloc), 7, usize::MAX, fails);
    put_lines(bytes, &mut device).is_ok() && device.taken() == bytes
}

#[test]
fn blocks_taken_in_pieces(rt: HostRuntime) -> Result<(), Fail> {
    let bytes = text(rt.alloc(), 2_000)?;
    assert!(rt; takes_in_pieces(rt.alloc(), &bytes));
    Ok(())
}

/// Whether a text of 2,000 bytes fails after 600 of them, which the device then has, with 3 calls.
fn fails_after_600(alloc: Global, bytes: &[u8], failure: Failing) -> bool {
    let mut device = TestWriter::new(Vec::new(alloc), usize::MAX, 600, failure);
    put_lines(bytes, &mut device).is_err()
        && Some(device.taken()) == bytes.get(..600)
        && device.calls() == 3
}

#[test]
fn blocks_to_a_device_that_fails(rt: HostRuntime) -> Result<(), Fail> {
    let bytes = text(rt.alloc(), 2_000)?;
    for failure in [Failing::Fails(ErrorKind::Other), Failing::TakesNothing] {
        assert!(rt; fails_after_600(rt.alloc(), &bytes, failure));
    }
    Ok(())
}
