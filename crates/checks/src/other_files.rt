//! What a file is that is not an a.out file of the Seventh Edition. Only tested: all of it but the header.
ghost use Rattle.std.specs.Prelude.{◌≡◌, if◌then◌else◌, nat_lt, length, None, Some};
ghost use Rattle.aout_core.specs.Decoding.{header_in};

use aout_core::{Header, is_magic};
use gnu_objects::{Locals, Options, Refusal, convert};
use std::alloc::{AllocError, Global};

/// The header that a file begins with, if it is as long.
pub fn header_of(bytes: &[u8]) -> Option<Header>
    ensures { result ≡ (if nat_lt (length bytes.now) 16 then None else Some (header_in bytes.now)) }
{
    let mut start = [0u8; 16];
    if bytes.len() < start.len() {
        return None;
    }
    start.copy_from_slice(&bytes[..16]);
    Some(Header::read(&start))
}

fn is_text(bytes: &[u8]) -> bool {
    bytes.iter().all(|byte| {
        (8 <= *byte && *byte <= 13 && *byte != 11) || (b' ' <= *byte && *byte != 127)
    })
}

/// The form of a file that has no magic number of ours.
#[derive(Clone, Copy, Debug, PartialEq, Eq)]
pub enum OtherForm {
    /// No bytes.
    Empty,
    /// An ELF file.
    Elf,
    /// An archive of the Seventh Edition.
    Archive,
    /// An archive of an earlier edition.
    OldArchive,
    /// An archive of later systems.
    PortableArchive,
    /// A program with overlays, of a later system.
    Overlaid,
    /// Text, in seven bits or in eight.
    PlainText,
    /// A magic number of ours, the high byte first.
    Swapped,
    /// An archive of tar.
    Tape,
    /// What a process leaves that the system ends.
    Core,
}

/// The form of a file that begins with the bytes of another one.
fn known_form(bytes: &[u8]) -> Option<OtherForm> {
    match bytes {
        [] => Some(OtherForm::Empty),
        [0x7f, b'E', b'L', b'F', ..] => Some(OtherForm::Elf),
        [0o145, 0o377, ..] => Some(OtherForm::Archive),
        [0o155, 0o377, ..] => Some(OtherForm::OldArchive),
        [b'!', b'<', b'a', b'r', b'c', b'h', b'>', ..] => Some(OtherForm::PortableArchive),
        [0o030 | 0o031, 1, ..] => Some(OtherForm::Overlaid),
        _ => None,
    }
}

/// Whether a file begins with a magic number of ours with its bytes swapped.
fn is_swapped(bytes: &[u8]) -> bool {
    match bytes {
        [low, high, ..] => is_magic(u16::from(*high) + 256 * u16::from(*low)),
        _ => false,
    }
}

/// Whether bytes have a number of a header of tar from one of them up to another one.
fn has_number(bytes: &[u8], start: usize, end: usize) -> bool {
    match bytes.get(start..end) {
        Some(field) => field
            .iter()
            .all(|byte| *byte == b' ' || (b'0' <= *byte && *byte <= b'7')),
        None => false,
    }
}

/// Whether a file begins with a header of tar: the mode, the user and the group, the size, the time and the sum.
fn is_tape(bytes: &[u8]) -> bool {
    bytes.len() >= 512
        && has_number(bytes, 100, 106)
        && has_number(bytes, 108, 114)
        && has_number(bytes, 116, 122)
        && has_number(bytes, 124, 135)
        && has_number(bytes, 136, 147)
        && has_number(bytes, 148, 154)
}

/// Whether a file has the size that a core file says.
fn is_core(bytes: &[u8]) -> bool {
    match bytes.get(0o412..0o416) {
        Some([data_low, data_high, stack_low, stack_high]) => {
            let data = usize::from(*data_low) + 256 * usize::from(*data_high);
            let stack = usize::from(*stack_low) + 256 * usize::from(*stack_high);
            stack > 0 && bytes.len() == 1024 + 64 * (data + stack)
        }
        _ => false,
    }
}

/// The form of a file with no magic number of ours, if it is known.
pub fn other_form(bytes: &[u8]) -> Option<OtherForm> {
    match known_form(bytes) {
        Some(form) => Some(form),
        None if is_text(bytes) => Some(OtherForm::PlainText),
        None if is_swapped(bytes) => Some(OtherForm::Swapped),
        None if is_tape(bytes) => Some(OtherForm::Tape),
        None if is_core(bytes) => Some(OtherForm::Core),
        None => None,
    }
}

/// A form in words.
fn form_text(form: OtherForm) -> &'static str {
    match form {
        OtherForm::Empty => "the file is empty",
        OtherForm::Elf => "this is an ELF file, of another system",
        OtherForm::Archive => {
            "this is an archive (0177545); take its members out with the ar of its system"
        }
        OtherForm::OldArchive => {
            "this is an old archive (0177555); take its members out with the ar of its system"
        }
        OtherForm::PortableArchive => "this is an archive; take its members out with ar",
        OtherForm::Overlaid => "this is a program with overlays (0430, 0431), of 2BSD",
        OtherForm::PlainText => "this is text",
        OtherForm::Swapped => {
            "a magic number with its bytes swapped: each word has its low byte first"
        }
        OtherForm::Tape => "this is an archive of tar; take its files out with tar",
        OtherForm::Core => "this is a core file, of a process that has ended",
    }
}

/// What a file with no magic number of ours is, if it is known.
pub fn likeness(bytes: &[u8]) -> Option<&'static str> {
    other_form(bytes).map(form_text)
}

/// Whether a file that `convert` refuses is in the form of GNU's assembler. After some refusals it is only if nothing else reads it.
fn is_of_gnu_refused(refusal: Refusal, is_unread: bool) -> bool {
    match refusal {
        Refusal::Linked(_)
        | Refusal::TooManySymbols(_)
        | Refusal::AlikeNames(_, _)
        | Refusal::StabWord(_)
        | Refusal::LocalWord(_, _)
        | Refusal::BadWord(_) => true,
        Refusal::Overlay(_) | Refusal::BadPlace(_) | Refusal::Stab(_) | Refusal::Description(_) => {
            is_unread
        }
        _ => false,
    }
}

/// Whether a file is in the form of GNU's assembler and of 2.11BSD, with symbols of 8 bytes and their names after them.
/// A file without symbols has both forms, and is not recognized, and neither is one of another magic than 0407. `is_unread` says that the
/// bytes are not a file of the Seventh Edition.
///
/// An error: out of memory.
pub fn is_of_gnu(alloc: Global, bytes: &[u8], is_unread: bool) -> Result<bool, AllocError> {
    match header_of(bytes) {
        Some(header) if header.symbol_size > 0 => {}
        _ => return Ok(false),
    }
    let options = Options {
        drops_debugger: true,
        locals: Locals::KeepAll,
    };
    match convert(alloc, bytes, options) {
        Ok(_) => Ok(true),
        Err(Refusal::Memory(refused)) => Err(AllocError::from(refused)),
        Err(refusal) => Ok(is_of_gnu_refused(refusal, is_unread)),
    }
}
