//! The texts of faults, in parts.
ghost use Rattle.std.specs.Prelude.{◌≡◌, None, Some, if◌then◌else◌, option_map};
ghost use Rattle.aout_core.specs.{FaultTexts.{number_text, object_text}, Wires.Writes};
ghost use Rattle.v7tools.specs.{FaultTexts.{addition_text, at_file, file_text}, internal.FaultParts.{text_of, path_text}};

use aout_core::{DeviceFault, ObjectFault, ReadFault, Wire};
use itoa::Buffer;
use link_session::AddFault;
use std::io::Write;

/// The text of a fault in parts: a path and `: `, what is said, and the index of a word. The path or the index may be
/// left out.
#[derive(Clone, Copy)]
pub(crate) struct FaultText<'a> {
    pub(crate) path: Option<&'a str>,
    pub(crate) words: &'a str,
    pub(crate) index: Option<u16>,
}

/// A text of words alone.
pub(crate) fn says<'a>(words: &'a str) -> FaultText<'a>
    ensures { text_of result ≡ words.now }
{
    FaultText {
        path: None,
        words,
        index: None,
    }
}

pub(crate) fn says_of<'a>(path: &'a str, words: &'a str) -> FaultText<'a>
    ensures { text_of result ≡ at_file path.now words.now }
{
    FaultText {
        path: Some(path),
        words,
        index: None,
    }
}

/// The path of a file, unless memory ran out: that is not said of the file.
fn path_unless<'a>(path: &'a str, is_memory: bool) -> Option<&'a str>
    ensures { option_map (λ path. path.now) result ≡ (if is_memory then None else Some path.now) }
{
    if is_memory { None } else { Some(path) }
}

/// What is wrong with a file.
pub(crate) fn file_text<'a>(path: &'a str, fault: ReadFault) -> FaultText<'a>
    ensures { text_of result ≡ file_text path.now fault }
{
    FaultText {
        path: path_unless(path, matches!(fault, ReadFault::Memory(_))),
        words: fault.text(),
        index: None,
    }
}

/// Why a file is not an object.
pub(crate) fn object_text<'a>(path: &'a str, fault: ObjectFault) -> FaultText<'a>
    ensures { text_of result ≡ at_file path.now (object_text fault) }
{
    FaultText {
        path: Some(path),
        words: fault.words(),
        index: fault.bad_word(),
    }
}

/// Why an object was not added.
pub(crate) fn addition_text<'a>(path: &'a str, fault: AddFault) -> FaultText<'a>
    ensures { text_of result ≡ addition_text path.now fault }
{
    FaultText {
        path: path_unless(path, matches!(fault, AddFault::Memory(_))),
        words: fault.text(),
        index: None,
    }
}

/// Writes a path and `: `, if there is a path.
fn put_path<W: Write>(path: Option<&str>, out: &mut Wire<W>) -> Result<(), DeviceFault>
    ensures { Writes W.contents result out.old out.new (path_text path.entry) }
{
    match path {
        Some(path) => out.put_both(path.as_bytes(), b": "),
        None => out.put(b""),
    }
}

/// Writes the index of a word in decimal, if there is one.
fn put_index<W: Write>(index: Option<u16>, out: &mut Wire<W>) -> Result<(), DeviceFault>
    ensures { Writes W.contents result out.old out.new (number_text index) }
{
    match index {
        Some(index) => out.put(Buffer::new().format(index).as_bytes()),
        None => out.put(b""),
    }
}

impl<'a> FaultText<'a> {
    /// Writes the parts, one after the other.
    pub(crate) fn write<W: Write>(&self, out: &mut Wire<W>) -> Result<(), DeviceFault>
        ensures { Writes W.contents result out.old out.new (text_of self.now) }
    {
        put_path(self.path, out)?;
        out.put(self.words.as_bytes())?;
        put_index(self.index, out)
    }
}
