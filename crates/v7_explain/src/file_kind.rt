//! What a file is, in a word or two.

use aout_core::Header;
use checks::OtherForm;

/// What a file is.
#[derive(Clone, Copy, Debug, PartialEq, Eq)]
pub enum FileKind {
    /// An object, of magic number 0407 with relocation.
    Object,
    /// A program of magic number 0407.
    Program,
    /// A program of magic number 0410.
    PureProgram,
    /// A program of magic number 0411.
    SeparateProgram,
    /// An overlay, of magic number 0405.
    Overlay,
    /// An object in the form of GNU's assembler.
    GnuObject,
    /// A file with no magic number of ours, of this form if it is known.
    OfForm(Option<OtherForm>),
    /// A device, which is not read.
    Device,
    /// A FIFO, which is not read.
    Fifo,
    /// A socket, which cannot be read.
    Socket,
    /// What has a name that is not UTF-8, and cannot be opened.
    NotUtf8,
}

pub(crate) fn file_kind(header: &Header) -> FileKind {
    match header.magic {
        0o405 => FileKind::Overlay,
        0o410 => FileKind::PureProgram,
        0o411 => FileKind::SeparateProgram,
        _ if header.flag == 0 => FileKind::Object,
        _ => FileKind::Program,
    }
}

/// The word for a kind.
pub(crate) fn kind_text(kind: FileKind) -> &'static str {
    match kind {
        FileKind::Object => "object",
        FileKind::Program => "program 0407",
        FileKind::PureProgram => "program 0410",
        FileKind::SeparateProgram => "program 0411",
        FileKind::Overlay => "overlay",
        FileKind::GnuObject => "GNU object",
        FileKind::OfForm(form) => form_text(form),
        FileKind::Device => "device",
        FileKind::Fifo => "FIFO",
        FileKind::Socket => "socket",
        FileKind::NotUtf8 => "not UTF-8",
    }
}

/// The word for a form.
fn form_text(form: Option<OtherForm>) -> &'static str {
    use OtherForm::*;
    match form {
        Some(Elf) => "ELF",
        Some(Archive | OldArchive | PortableArchive) => "archive",
        Some(PlainText) => "text",
        Some(Empty) => "empty",
        Some(Swapped) => "swapped",
        Some(Overlaid) => "overlaid",
        Some(Tape) => "tar",
        Some(Core) => "core",
        None => "other",
    }
}
