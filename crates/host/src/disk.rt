//! The files of a runtime, as a `FileSystem`. No contract can say what a file gives or takes, so these lines are to be read: a
//! file is opened, looked for and stored at the very path that is asked for.
ghost use Rattle.std.specs.{Prelude.{◌≡◌, ◌≢◌, [], OnErr, OnOk}, Io.KnownBytes.Appends};
ghost use Rattle.aout_core.specs.Encoding.{encoding};
ghost use Rattle.host.specs.{Emits.IsStoredOn, Events.path_fault, declared.file_system.Stored.TheVariants.{Kept, NotCreated}};

use crate::file_system::{FileSystem, Stored};
use crate::nodes::{Found, Node};
use crate::path_fault::PathFault;
use crate::pieces::PieceWriter;
use aout_core::{BufferedWrite, File, Wire, write_file};
use std::fs::{self, FileType, OpenFile};
use std::io::{self, ErrorKind, Write};
use std::os::unix::fs::{FileTypeExt, MetadataExt};
use std::rt::{Files, Runtime};

/// Stores a file on a device, which is flushed: nothing of it waits, if it is kept. On a fault a prefix of it went out.
pub fn store_on<W: BufferedWrite>(file: &File, out: &mut Wire<W>) -> Stored
    ensures stored { IsStoredOn W.contents result out.old out.new (encoding file.now) }
    ensures passed { result ≡ Kept → W.waiting out.new.device ≡ [] }
{
    if let Err(fault) = write_file(file, out) {
        return Stored::Failed(fault);
    }
    match out.pass_on() {
        Ok(()) => Stored::Kept,
        Err(fault) => Stored::Failed(fault),
    }
}

/// Stores a text on a device, which is flushed. On a fault a prefix of it went out.
pub fn store_text_on<W: Write>(text: &[u8], out: &mut Wire<W>) -> Stored
    ensures { IsStoredOn W.contents result out.old out.new text.now }
{
    if let Err(fault) = out.put(text) {
        return Stored::Failed(fault);
    }
    match out.flush() {
        Ok(()) => Stored::Kept,
        Err(fault) => Stored::Failed(fault),
    }
}

/// Stores a file on a device in large pieces, and hands the device back: if the file is kept, the device itself has all its bytes,
/// and has reached the disk if it replaces another one.
fn store_in_pieces<F: Write + OpenFile>(file: &File, device: F, replaces: bool) -> (Stored, F)
    ensures kept { result.0 ≡ Kept → Appends (F.contents device) (F.contents result.1) (encoding file.now) }
    ensures made { result.0 ≢ NotCreated path_fault }
{
    let mut out = Wire::new(PieceWriter::new(device, replaces));
    let stored = store_on(file, &mut out);
    (stored, out.into_inner().into_file())
}

/// Stores a file on the device that was made for it, if one was.
fn store_made<F: Write + OpenFile + Drop>(
    file: &File,
    made: io::Result<F>,
    replaces: bool,
) -> Stored
    ensures made { OnOk made (result ≢ NotCreated path_fault) }
    ensures unmade { OnErr made (result ≡ NotCreated path_fault) }
{
    match made {
        Ok(device) => store_in_pieces(file, device, replaces).0,
        Err(error) => Stored::NotCreated(PathFault::from(error)),
    }
}

/// The same of a text.
#[tactic(auto, using(crate::proofs::PieceLemmas::is_made))]
fn store_text_made<F: Write + OpenFile + Drop>(
    text: &[u8],
    made: io::Result<F>,
    replaces: bool,
) -> Stored
    ensures made { OnOk made (result ≢ NotCreated path_fault) }
    ensures unmade { OnErr made (result ≡ NotCreated path_fault) }
{
    match made {
        Ok(device) => store_text_on(text, &mut Wire::new(PieceWriter::new(device, replaces))),
        Err(error) => Stored::NotCreated(PathFault::from(error)),
    }
}

/// The type of what is at a path, if this is a device, or itself a FIFO or a socket. A link to one of these two has none.
///
/// Errors: that of the system, which does not say what is there.
pub(crate) fn special_at<H: Files>(rt: &H, path: &str) -> io::Result<Option<FileType>> {
    let kind = fs::symlink_metadata(rt, path)?.file_type();
    if kind.is_symlink() {
        let target = fs::metadata(rt, path)?.file_type();
        return Ok((target.is_char_device() || target.is_block_device()).then_some(target));
    }
    Ok((!kind.is_file() && !kind.is_dir()).then_some(kind))
}

/// The files of a runtime.
#[derive(Drop)]
pub struct Disk<'a, H> {
    rt: &'a H,
    opens_special: bool,
}

impl<'a, H> Disk<'a, H> {
    pub fn new(rt: &'a H) -> Disk<'a, H> {
        Disk {
            rt,
            opens_special: true,
        }
    }

    /// The files that end: a device, a FIFO or a socket is opened through a link alone, as `/dev/stdin` is.
    pub fn of_files(rt: &'a H) -> Disk<'a, H> {
        Disk {
            rt,
            opens_special: false,
        }
    }
}

impl<H: Runtime> FileSystem for Disk<'_, H> {
    ghost use Rattle.std.specs.Prelude.{None, [], ◌∷◌};
    ghost use Rattle.host.specs.Events.{Extends, closed};

    type Source = H::File;

    fn open(&mut self, path: &str) -> Result<H::File, PathFault> {
        if !self.opens_special
            && let Some(kind) = special_at(self.rt, path)?
        {
            return Err(PathFault::from(kind));
        }
        Ok(fs::open(self.rt, path)?)
    }

    fn close(&mut self, source: Wire<H::File>)
        ensures { Extends None None (closed source.has_failed ∷ []) }
    {
        drop(source);
    }

    fn node(&mut self, path: &str) -> Found {
        match fs::metadata(self.rt, path) {
            Ok(found) if found.is_file() => Found::File(Node {
                device: found.dev(),
                number: found.ino(),
            }),
            Ok(_) => Found::NoFile,
            Err(error) if error.kind() == ErrorKind::NotFound => Found::NoFile,
            Err(error) => Found::Unknown(PathFault::from(error)),
        }
    }

    fn store(&mut self, path: &str, file: &File) -> Stored {
        let replaces = !matches!(self.node(path), Found::NoFile);
        store_made(file, fs::create(self.rt, path), replaces)
    }

    fn store_text(&mut self, path: &str, text: &[u8]) -> Stored {
        let replaces = !matches!(self.node(path), Found::NoFile);
        store_text_made(text, fs::create(self.rt, path), replaces)
    }
}
