//! Lists and sizes on devices that fail.
use crate::fixtures::{S_O_LIST, s_o};
use crate::links::{FAILURES, failing_writer};
use aout_core::File;
use aout_core::samples::Failing;
use std::alloc::Global;
use std::test::Fail;
use symtools::{NmOptions, ToolFault, nm, size};

/// Whether it is a fault of the device.
fn is_device_fault(done: Result<(), ToolFault>) -> bool {
    matches!(done, Err(ToolFault::Device(_)))
}

/// Whether nm answers a fault of the device, now and for no files, and has written a prefix of the list.
fn fails_to_list(alloc: Global, files: &[(String, File)], before: usize, failure: Failing) -> bool {
    let mut out = failing_writer(alloc, before, failure);
    let is_reported = is_device_fault(nm(alloc, files, NmOptions::default(), &mut out))
        && out.failed()
        && is_device_fault(nm(alloc, &[], NmOptions::default(), &mut out));
    is_reported && Some(out.into_inner().taken()) == S_O_LIST.as_bytes().get(..before)
}

/// The line of the sizes of `s.o`.
const SIZE_LINE: &str = "4+0+0 = 4b = 04b\n";

/// Whether size answers a fault of the device, now and for no files, and has written a prefix of the line.
fn fails_to_size(alloc: Global, files: &[(String, File)], before: usize, failure: Failing) -> bool {
    let mut out = failing_writer(alloc, before, failure);
    let is_reported = is_device_fault(size(files, &mut out))
        && out.failed()
        && is_device_fault(size(&[], &mut out));
    is_reported && Some(out.into_inner().taken()) == SIZE_LINE.as_bytes().get(..before)
}

#[test]
fn lines_fail_everywhere(rt: HostRuntime) -> Result<(), Fail> {
    let alloc = rt.alloc();
    let files = s_o(alloc).ok_or("no file")?;
    for failure in FAILURES {
        for before in 0..S_O_LIST.len() {
            assert!(rt; fails_to_list(alloc, &files, before, failure));
        }
        for before in 0..SIZE_LINE.len() {
            assert!(rt; fails_to_size(alloc, &files, before, failure));
        }
    }
    Ok(())
}
