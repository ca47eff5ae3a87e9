//! The lines about objects and their places.
use crate::candidates::{Candidate, Trial};
use crate::known::Row;
use crate::linking::layout_of;
use crate::reading::Source;
use aout_core::File;
use host::Path;
use link_out::Layout;
use texts::Text;

/// Puts a number of bytes in octal, with a 0 in front.
fn put_size(text: &mut Text, size: u16) {
    if size != 0 {
        text.put_byte(b'0');
    }
    text.put_octal(u64::from(size));
}

/// Puts the line of the program: its sizes, and its layout.
pub(crate) fn put_head(text: &mut Text, sources: &[Source], program: &File) {
    let header = program.header();
    text.say(Path(path_of(sources, 0)));
    text.put(": text ");
    put_size(text, header.text_size);
    text.put(", data ");
    put_size(text, header.data_size);
    if header.bss_size != 0 {
        text.put(", bss ");
        put_size(text, header.bss_size);
    }
    text.put(match layout_of(header.magic) {
        Layout::Plain => ", plain\n",
        Layout::Pure => ", pure\n",
        Layout::Split => ", split\n",
    });
}

/// Puts two addresses of text, and the column after them.
pub(crate) fn put_range(text: &mut Text, from: usize, to: usize) {
    text.say(format_args!("{from:06o}-{to:06o}  "));
}

/// The path of a file.
pub(crate) fn path_of(sources: &[Source], number: usize) -> &str {
    sources
        .get(number)
        .map_or("", |source| source.path.as_str())
}

/// Puts where the data of a row begins.
fn put_place(text: &mut Text, program: &File, candidate: &Candidate, place: Option<u16>) {
    match place {
        _ if candidate.data_size() == 0 => text.put("-       "),
        None => text.put("?       "),
        Some(place) => {
            let start = program.header().data_start();
            let address = start.wrapping_add(usize::from(place));
            text.say(format_args!("{address:06o}  "));
        }
    }
}

/// Puts the row of an object: its text, where its data begins, and its path, with those of equal files that are in no row.
pub(crate) fn put_row(text: &mut Text, trial: &Trial<'_>, rows: &[Row], row: &Row) {
    let Some(candidate) = trial.all.get(row.candidate) else {
        return;
    };
    if candidate.is_empty() {
        text.put("-              ");
    } else {
        put_range(text, usize::from(row.text), trial.end_of(row).0);
    }
    put_place(text, trial.program, candidate, row.place);
    text.say(Path(trial.path(candidate, row.file)));
    let used = rows
        .iter()
        .filter(|other| other.candidate == row.candidate)
        .count();
    for file in used..candidate.files.len() {
        text.say(format_args!(" or {}", Path(trial.path(candidate, file))));
    }
    text.put_byte(b'\n');
}

/// Whether a shell takes a byte as it is.
fn is_plain(byte: u8) -> bool {
    byte.is_ascii_alphanumeric() || b"%+,-./:=@_".contains(&byte)
}

/// Puts a path as an argument of a command: in quotes, if a shell would not take it as it is.
fn put_argument(text: &mut Text, path: &str) {
    text.put_byte(b' ');
    if path.as_bytes().first().copied() == Some(b'-') {
        text.put("./");
    }
    if !path.is_empty() && path.as_bytes().iter().all(|byte| is_plain(*byte)) {
        text.put(path);
        return;
    }
    text.put_byte(b'\'');
    for byte in path.as_bytes() {
        match byte {
            b'\'' => text.put("'\\''"),
            byte => text.put_byte(*byte),
        }
    }
    text.put_byte(b'\'');
}

/// Puts the command that makes the program of files in an order.
pub(crate) fn put_command(text: &mut Text, program: &File, sources: &[Source], order: &[usize]) {
    text.put(match layout_of(program.header().magic) {
        Layout::Plain => "v7 ld",
        Layout::Pure => "v7 ld -n",
        Layout::Split => "v7 ld -i",
    });
    if program.symbols().is_empty() {
        text.put(" -s");
    }
    text.put(" -o");
    put_argument(text, path_of(sources, 0));
    for number in order {
        put_argument(text, path_of(sources, *number));
    }
    text.put_byte(b'\n');
}
