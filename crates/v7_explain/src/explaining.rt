//! Files that are explained one after another: each is read whole and explained before the next one is opened.
ghost use Rattle.std.specs.Prelude.{◌≡◌, ℕ, List, OnOk, IfErr, IfOk, IfSome, map, string_bytes};
ghost use Rattle.aout_core.specs.Decoding.{decode};
ghost use Rattle.host.specs.Sources.{EndsReading};
ghost use Rattle.v7_explain.specs.Files.{IsSaid, joined, most_bytes, nothing_said};
ghost use Rattle.v7_explain.specs.Runs.{Explains, ExplainsAt, IsEach, IsUnopened, IsWalk, ReadsFor};
ghost use Rattle.v7_explain.specs.declared.explaining.Mode.TheVariants.{Inventory};

use crate::checking::{check_file, check_refused};
use crate::file_kind::FileKind;
use crate::inventory::{inventory_answer, row_answer, totalled, unnamed_answer};
use crate::inventory_row::plain_row;
use crate::listing::{View, list_file, show_file};
use crate::program::NAME;
use crate::source::{Source, refuse};
use aout_core::decode_file;
use checks::Evidence;
use host::{Answer, Fault, FileSystem, Folders, Special, Walked, read_front, read_whole, walk_all};
use std::alloc::{AllocError, Global};

/// What is said of each file.
#[derive(Clone, Copy, PartialEq, Eq)]
pub(crate) enum Mode {
    /// A listing, and with this what is wrong too, for standard error.
    Listing(bool),
    /// Its instructions, or its words in rows.
    Show(View),
    /// Why it is not an object, or what is odd in it.
    Check(Evidence),
    /// A line of an inventory.
    Inventory,
}

/// No answer yet.
pub(crate) fn nothing_said(alloc: Global) -> Answer
    ensures { result ≡ nothing_said }
{
    Answer {
        output: Vec::new(alloc),
        errors: Vec::new(alloc),
        status: 0,
    }
}

/// Adds a further answer; the status is the larger one.
pub(crate) fn join(said: &mut Answer, more: &Answer) -> Result<(), AllocError>
    ensures { OnOk result (said.new ≡ joined said.old more.now) }
{
    said.output.extend_from_slice(&more.output)?;
    said.errors.extend_from_slice(&more.errors)?;
    said.status = said.status.max(more.status);
    Ok(())
}

/// What is said of the bytes of a file.
pub(crate) fn explain(alloc: Global, mode: Mode, source: Source<'_>) -> Result<Answer, AllocError>
    ensures { IfOk result (λ a.
        IsSaid mode source.entry.bytes.now (decode source.entry.bytes.now) a) }
{
    match (mode, decode_file(alloc, source.bytes)?) {
        (Mode::Listing(is_told), Ok(file)) => list_file(alloc, source, is_told, &file),
        (Mode::Listing(is_told), Err(fault)) => refuse(alloc, None, source, is_told, fault),
        (Mode::Show(view), Ok(file)) => show_file(alloc, source, view, &file),
        (Mode::Show(view), Err(fault)) => refuse(alloc, Some(view), source, false, fault),
        (Mode::Check(evidence), Ok(file)) => check_file(alloc, evidence, source, &file),
        (Mode::Check(_), Err(fault)) => check_refused(alloc, source, fault),
        (Mode::Inventory, read) => inventory_answer(alloc, source, &read),
    }
}

/// How many bytes the largest core file has, which is larger than any a.out file: 1,024 bytes and 131,070 blocks of 64.
pub(crate) const MOST_BYTES: u32 = 8_389_504;

fn bytes_for<O: FileSystem>(
    alloc: Global,
    file_system: &mut O,
    mode: Mode,
    path: &str,
) -> Result<Vec<u8>, Fault>
    ensures ok { IfOk result (λ bytes.
        ReadsFor mode (O.history file_system.old) (O.history file_system.new) path.now bytes.items) }
    ensures err { IfErr result (λ fault.
        EndsReading most_bytes (O.history file_system.old) (O.history file_system.new) path.now fault) }
{
    match mode {
        Mode::Inventory => read_front(alloc, file_system, NAME, path, u64::from(MOST_BYTES) + 1),
        _ => read_whole(alloc, file_system, NAME, path, MOST_BYTES),
    }
}

/// What is said of the file at a path; of one that can't be opened or read its line.
fn explain_at<O: FileSystem>(
    alloc: Global,
    file_system: &mut O,
    mode: Mode,
    path: &str,
) -> Result<Answer, Fault>
    ensures { Explains mode path.now (O.history file_system.old) (O.history file_system.new) result }
{
    match bytes_for(alloc, file_system, mode, path) {
        Ok(bytes) => {
            let source = Source {
                path,
                bytes: &bytes,
            };
            Ok(explain(alloc, mode, source)?)
        }
        Err(Fault::Answered(answer)) => Ok(answer),
        Err(Fault::Memory(refused)) => Err(Fault::Memory(refused)),
    }
}

/// A file to be explained: at a path of the arguments, or one that was found.
pub(crate) trait Explainable {
    ghost path: { Self → List ℕ };

    /// Its path, or what is shown in place of it.
    fn path(&self) -> &str
        ensures { result.now ≡ path self.now };

    /// Whether it can be opened by its path.
    fn is_named(&self) -> bool;
}

impl Explainable for String {
    ghost path = { λ path. string_bytes path };

    fn path(&self) -> &str {
        self.as_str()
    }

    fn is_named(&self) -> bool {
        true
    }
}

impl Explainable for Walked {
    ghost path = { λ found. string_bytes found.path };

    fn path(&self) -> &str {
        self.path.as_str()
    }

    fn is_named(&self) -> bool {
        self.is_named
    }
}

/// The kind of what is not read.
fn kind_of(special: Special) -> FileKind {
    match special {
        Special::Device => FileKind::Device,
        Special::Fifo => FileKind::Fifo,
        Special::Socket => FileKind::Socket,
    }
}

/// The line of what an inventory does not open: a device, a FIFO or a socket, or a path that is not UTF-8.
fn unopened<F: Folders, P: Explainable>(
    alloc: Global,
    folders: &F,
    found: &P,
) -> Result<Option<Answer>, AllocError>
    ensures { IfOk result (λ line. IfSome line IsUnopened) }
{
    let path = found.path();
    if !found.is_named() {
        return Ok(Some(unnamed_answer(alloc, path)?));
    }
    match folders.special_at(path) {
        Some(special) => Ok(Some(row_answer(alloc, path, &plain_row(kind_of(special)))?)),
        None => Ok(None),
    }
}

/// The line of what was found.
fn line_of<O: FileSystem, F: Folders, P: Explainable>(
    alloc: Global,
    file_system: &mut O,
    folders: &F,
    found: &P,
) -> Result<Answer, Fault>
    ensures { ExplainsAt Inventory (P.path found.now) (O.history file_system.old) (O.history file_system.new) result }
{
    match unopened(alloc, folders, found)? {
        Some(line) => Ok(line),
        None => explain_at(alloc, file_system, Mode::Inventory, found.path()),
    }
}

/// What is said of what was found.
fn explain_found<O: FileSystem, F: Folders, P: Explainable>(
    alloc: Global,
    file_system: &mut O,
    folders: &F,
    mode: Mode,
    found: &P,
) -> Result<Answer, Fault>
    ensures { ExplainsAt mode (P.path found.now) (O.history file_system.old) (O.history file_system.new) result }
{
    match mode {
        Mode::Inventory => line_of(alloc, file_system, folders, found),
        _ => explain_at(alloc, file_system, mode, found.path()),
    }
}

/// What is said of each, in order, and the largest status.
pub(crate) fn explain_each<O: FileSystem, F: Folders, P: Explainable>(
    alloc: Global,
    file_system: &mut O,
    folders: &F,
    mode: Mode,
    all: &[P],
) -> Result<Answer, Fault>
    ensures { IsEach (ExplainsAt mode) (map P.path all.now) nothing_said
        (O.history file_system.old) (O.history file_system.new) result }
{
    let mut said = nothing_said(alloc);
    for found in all {
        let more = explain_found(alloc, file_system, folders, mode, found)?;
        join(&mut said, &more)?;
    }
    Ok(said)
}

/// A line of an inventory of each file at these paths, and in the folders there, and the line of totals. All files are found before
/// the first is opened.
pub(crate) fn explain_walked<O: FileSystem, F: Folders>(
    alloc: Global,
    file_system: &mut O,
    folders: &F,
    paths: &[String],
) -> Result<Answer, Fault>
    ensures { IsWalk (O.history file_system.old) (O.history file_system.new) result }
{
    let found = walk_all(alloc, folders, paths)?;
    let said = explain_each(alloc, file_system, folders, Mode::Inventory, &found)?;
    Ok(totalled(alloc, said)?)
}
