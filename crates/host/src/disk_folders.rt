//! The folders of a runtime. No contract can say what a folder has, so these lines are to be read: the names are those at the very path
//! that is asked for. Links are left out.
use crate::disk::special_at;
use crate::folders::{Folder, Folders, Special, path_in};
use aout_core::Refused;
use std::alloc::{AllocError, Global};
use std::fs;
use std::io::{self, BufRead, BufReader};
use std::os::unix::fs::FileTypeExt;
use std::rt::{Files, Runtime};
use texts::Printable;

/// The folders of a runtime.
#[derive(Drop)]
pub struct DiskFolders<'a, H> {
    pub rt: &'a H,
}

/// Fails if the system's answer is that there is no memory.
fn check_memory(error: &io::Error) -> Result<(), AllocError> {
    match Refused::reported_by(error) {
        Some(refused) => Err(AllocError::from(refused)),
        None => Ok(()),
    }
}

/// Adds a name of the folder at a path, unless it is that of a link. What can't be looked at, as a name that is not UTF-8, is taken for
/// something else.
fn take<H: Files>(
    alloc: Global,
    rt: &H,
    path: &str,
    folder: &mut Folder,
    name: Vec<u8>,
) -> Result<(), AllocError> {
    if name.as_slice() == b".".as_slice() || name.as_slice() == b"..".as_slice() {
        return Ok(());
    }
    let name = match String::from_utf8(name) {
        Ok(name) => name,
        Err(error) => {
            let shown = format!(in alloc; "{}", Printable(&error.into_bytes()))?;
            folder.unnamed.push(shown)?;
            return Ok(());
        }
    };
    match fs::symlink_metadata(rt, path_in(alloc, path, name.as_str())?.as_str()) {
        Ok(about) if about.is_symlink() => {}
        _ => folder.names.push(name)?,
    }
    Ok(())
}

/// Adds the names of the folder at a path, each of which ends with a NUL.
fn take_all<H: Files>(
    alloc: Global,
    rt: &H,
    path: &str,
    folder: &mut Folder,
) -> Result<(), io::Error> {
    let names = BufReader::new(alloc, rt.open_dir(path)?)?;
    for name in names.split(alloc, 0) {
        take(alloc, rt, path, folder, name?)?;
    }
    Ok(())
}

impl<H: Runtime> Folders for DiskFolders<'_, H> {
    fn names_in(&self, alloc: Global, path: &str) -> Result<Option<Folder>, AllocError> {
        match fs::symlink_metadata(self.rt, path) {
            Ok(about) if about.is_dir() => {}
            Ok(_) => return Ok(None),
            Err(error) => {
                check_memory(&error)?;
                return Ok(None);
            }
        }
        let mut folder = Folder {
            names: Vec::new(alloc),
            unnamed: Vec::new(alloc),
            is_whole: true,
        };
        if let Err(error) = take_all(alloc, self.rt, path, &mut folder) {
            check_memory(&error)?;
            folder.is_whole = false;
        }
        Ok(Some(folder))
    }

    fn special_at(&self, path: &str) -> Option<Special> {
        let kind = special_at(self.rt, path).ok()??;
        Some(if kind.is_fifo() {
            Special::Fifo
        } else if kind.is_socket() {
            Special::Socket
        } else {
            Special::Device
        })
    }
}
