//! The files of the system, at paths of each length.
use aout_core::samples::A_O;
use aout_core::{File, decode_file};
use host::{Disk, FileSystem, Found, Stored};
use std::rt::Runtime;
use std::test::Fail;
use std::{env, fs};

/// Whether a file, and a text, are stored at a path, and found and opened there.
fn is_there<H: Runtime>(rt: &H, path: &str, file: &File) -> bool {
    let mut disk = Disk::of_files(rt);
    let is_stored = disk.store(path, file) == Stored::Kept && fs::remove_file(rt, path).is_ok();
    let is_written = disk.store_text(path, b"ab") == Stored::Kept;
    let is_found = matches!(disk.node(path), Found::File(_)) && disk.open(path).is_ok();
    is_stored && is_written && is_found && fs::remove_file(rt, path).is_ok()
}

#[test]
fn paths_of_each_length(rt: HostRuntime) -> Result<(), Fail> {
    let file = decode_file(rt.alloc(), &A_O)??;
    let mut folder = String::from_str(rt.alloc(), env::temp_dir(&rt)?.as_str())?;
    for _ in 0..4_000 {
        folder.push('/')?;
        let path = format!(in rt.alloc(); "{folder}f")?;
        assert!(rt; is_there(&rt, path.as_str(), &file), "{} bytes", path.len());
    }
    Ok(())
}
