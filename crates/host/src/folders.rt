//! Folders, and the files that are in them. Only tested: which these are.
use std::alloc::{AllocError, Global};

/// How many levels of folders are walked. A path of more has over 4,095 bytes, and Linux opens none of these.
const LEVELS: u16 = 2048;

/// What a folder has.
#[derive(Drop)]
pub struct Folder {
    /// The names of its files and folders.
    pub(crate) names: Vec<String>,
    /// Those that are not UTF-8, as they are shown.
    pub(crate) unnamed: Vec<String>,
    /// Whether these are all.
    pub(crate) is_whole: bool,
}

/// A path that a walk found.
#[derive(Drop)]
pub struct Walked {
    /// The path; if a name in it is not UTF-8, as it is shown.
    pub path: String,
    /// Whether all names in it are UTF-8. Otherwise it can't be opened.
    pub is_named: bool,
}

/// What a walk does not read.
#[derive(Clone, Copy, Debug, PartialEq, Eq)]
pub enum Special {
    Device,
    Fifo,
    Socket,
}

/// The folders around a command.
pub trait Folders {
    /// What the folder at a path has, in any order; `None` if there is no folder.
    fn names_in(&self, alloc: Global, path: &str) -> Result<Option<Folder>, AllocError>;

    /// What is at a path, if it is not read: a device, a FIFO or a socket, and no link to one of the last two.
    fn special_at(&self, path: &str) -> Option<Special>;
}

pub(crate) fn path_in(alloc: Global, folder: &str, name: &str) -> Result<String, AllocError> {
    let mut path = String::from_str(alloc, folder)?;
    if !folder.as_bytes().ends_with(b"/") {
        path.push('/')?;
    }
    path.push_str(name)?;
    Ok(path)
}

fn add(
    alloc: Global,
    path: &str,
    is_named: bool,
    found: &mut Vec<Walked>,
) -> Result<(), AllocError> {
    let path = String::from_str(alloc, path)?;
    found.push(Walked { path, is_named })?;
    Ok(())
}

/// Adds the files at a path and so many levels below it: what is not a folder, or a folder whose names are not all known; then what its
/// names have, in their order, and its names that are not UTF-8.
fn walk<F: Folders>(
    alloc: Global,
    folders: &F,
    levels: u16,
    path: &str,
    found: &mut Vec<Walked>,
) -> Result<(), AllocError> {
    if levels == 0 {
        return add(alloc, path, true, found);
    }
    let Some(mut folder) = folders.names_in(alloc, path)? else {
        return add(alloc, path, true, found);
    };
    folder.names.sort()?;
    folder.unnamed.sort()?;
    if !folder.is_whole {
        add(alloc, path, true, found)?;
    }
    for name in &folder.names {
        let inner = path_in(alloc, path, name.as_str())?;
        walk(alloc, folders, levels - 1, inner.as_str(), found)?;
    }
    for name in &folder.unnamed {
        let inner = path_in(alloc, path, name.as_str())?;
        add(alloc, inner.as_str(), false, found)?;
    }
    Ok(())
}

/// The files at each path and below it, in the order of their names: all but links.
///
/// Errors: `AllocError` if memory runs out.
pub fn walk_all<F: Folders>(
    alloc: Global,
    folders: &F,
    paths: &[String],
) -> Result<Vec<Walked>, AllocError> {
    let mut found = Vec::new(alloc);
    for path in paths {
        walk(alloc, folders, LEVELS, path.as_str(), &mut found)?;
    }
    Ok(found)
}
