//! Devices that give and take the bytes of a file in pieces, and how often they are called.
ghost use Rattle.std.specs.Prelude.{◌<◌};

use crate::fixtures::{v_o, written};
use aout_core::samples::{A_O, Failing, TestReader, TestWriter};
use aout_core::{File, ReadFault, Wire, read_file, write_file};
use std::alloc::Global;
use std::io::ErrorKind;
use std::test::Fail;

/// Whether the next file of a wire, written again, has these bytes.
fn is_rewritten(alloc: Global, wire: &mut Wire<TestReader<'_>>, bytes: &[u8]) -> bool {
    read_file(alloc, wire).is_ok_and(|file| written(alloc, &file).is_ok_and(|found| found.as_slice()
        == bytes))
}

/// Whether a reader that gives at most `most` bytes a call gives the file of these bytes, then `a.o`, and then nothing.
fn gives_both(alloc: Global, first: &[u8], both: &[u8], most: usize) -> bool
    requires { 0 < most }
{
    let mut wire = Wire::new(TestReader::new(both, most, usize::MAX, ErrorKind::Other));
    let are_read = is_rewritten(alloc, &mut wire, first) && is_rewritten(alloc, &mut wire, &A_O);
    are_read && wire.into_inner().left().is_empty()
}

#[test]
fn pieces_in(rt: HostRuntime) -> Result<(), Fail> {
    let alloc = rt.alloc();
    let v_o = v_o(alloc)?;
    let mut both = v_o.as_slice().to_vec(alloc)?;
    both.extend_from_slice(&A_O)?;
    for most in [1, 2, 3, 7, 511, 512] {
        assert!(rt; gives_both(alloc, &v_o, &both, most), "{most} bytes a call");
    }
    Ok(())
}

/// How often a writer that takes at most `most` bytes a call was called, where it then has the file of these bytes.
fn calls_for(alloc: Global, file: &File, most: usize, bytes: &[u8]) -> Option<u32> {
    let writer = TestWriter::new(Vec::new(alloc), most, usize::MAX, Failing::TakesNothing);
    let mut wire = Wire::new(writer);
    let is_written = write_file(file, &mut wire).is_ok();
    let writer = wire.into_inner();
    if is_written && writer.taken() == bytes {
        Some(writer.calls())
    } else {
        None
    }
}

/// The same for the file that these bytes encode.
fn calls(alloc: Global, bytes: &[u8], most: usize) -> Option<u32> {
    match read_file(alloc, &mut Wire::new(TestReader::whole(bytes))) {
        Ok(file) => calls_for(alloc, &file, most, bytes),
        Err(_) => None,
    }
}

#[test]
fn pieces_out(rt: HostRuntime) -> Result<(), Fail> {
    let v_o = v_o(rt.alloc())?;
    assert!(rt; v_o.len() == 49_184);
    for most in [1, 3, 511] {
        assert!(rt;
            calls(rt.alloc(), &v_o, most).is_some(),
            "{most} bytes a call"
        );
    }
    assert!(rt; calls(rt.alloc(), &v_o, usize::MAX) == Some(97));
    Ok(())
}

/// Whether a reader that fails after 20 bytes is refused twice, with no call the second time.
fn is_latched(alloc: Global, failure: ErrorKind) -> bool {
    let mut wire = Wire::new(TestReader::new(&A_O, 7, 20, failure));
    let is_refused = matches!(read_file(alloc, &mut wire), Err(ReadFault::Device(_)))
        && wire.failed()
        && matches!(read_file(alloc, &mut wire), Err(ReadFault::Device(_)));
    is_refused && wire.into_inner().calls() == 5
}

#[test]
fn failing_devices_reading(rt: HostRuntime) {
    assert!(rt; is_latched(rt.alloc(), ErrorKind::Other));
    assert!(rt; is_latched(rt.alloc(), ErrorKind::Interrupted));
}
