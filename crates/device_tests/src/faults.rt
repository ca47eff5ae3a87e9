//! Loads that meet a fault, and its line.
use aout_core::samples::{A_O, Failing, TestReader, TestWriter};
use aout_core::{File, Wire};
use std::alloc::Global;
use std::test::Fail;
use v7tools::{CliFault, load};

/// Whether the fault writes this line, over a writer that takes 3 bytes a call.
fn writes(alloc: Global, fault: &CliFault, line: &str) -> bool {
    let writer = TestWriter::new(Vec::new(alloc), 3, usize::MAX, Failing::TakesNothing);
    let mut out = Wire::new(writer);
    let is_written = fault.write(&mut out).is_ok();
    let writer = out.into_inner();
    is_written && writer.taken() == line.as_bytes()
}

/// Whether this is the file of `a.o`.
fn is_a_o(file: &File) -> bool {
    file.header().to_bytes().as_slice() == &A_O[..16]
        && file.text_words() == [0o12700, 4].as_slice()
        && file.data_words() == [0o42].as_slice()
}

/// Whether `a.o` is loaded at its path.
fn is_loaded(alloc: Global, path: String) -> bool {
    match load(alloc, path, &mut Wire::new(TestReader::whole(&A_O))).ok() {
        Some((path, file)) => path.as_str() == "a.o" && is_a_o(&file),
        None => false,
    }
}

/// Whether the load of the first bytes of `a.o` is refused with its line.
fn is_cut(alloc: Global, path: String) -> bool {
    let fault = load(alloc, path, &mut Wire::new(TestReader::whole(&A_O[..17]))).err();
    fault.is_some_and(|fault| writes(alloc, &fault, "v7: a.o: truncated\n"))
}

#[test]
fn failing_devices_loading(rt: HostRuntime) -> Result<(), Fail> {
    let path = String::from_str(rt.alloc(), "a.o")?;
    assert!(rt; is_loaded(rt.alloc(), path));
    let path = String::from_str(rt.alloc(), "a.o")?;
    assert!(rt; is_cut(rt.alloc(), path));
    Ok(())
}
