//! The lines for standard error: why a file is refused, and what became of names.
use crate::converting::Target;
use crate::program::NAME;
use crate::reading::Source;
use gnu_objects::{Locals, Refusal, Remark, place_of, remarks, whole_name};
use host::Path;
use std::alloc::{AllocError, Global};
use texts::{Printable, Text};

/// The whole name of a symbol of a file.
fn name_in(file: &Source, n: u16) -> Printable<'_> {
    Printable(whole_name(&file.bytes, n))
}

/// Puts the line of a file that is refused, and the whole names of the symbols that it is refused for.
pub(crate) fn put_refusal(line: &mut Text, file: &Source, refusal: Refusal) {
    let path = Path(file.from.as_str());
    let place = place_of(&file.bytes, refusal);
    line.say(format_args!("{NAME}: {path}: byte 0{place:o} ({place}): {refusal}"));
    match refusal {
        Refusal::Overlay(n)
        | Refusal::Stab(n)
        | Refusal::Description(n)
        | Refusal::LocalWord(_, n) => line.say(format_args!(": {}", name_in(file, n))),
        Refusal::AlikeNames(n, m) => {
            line.say(format_args!(": {} and {}", name_in(file, n), name_in(file, m)));
        }
        _ => {}
    }
    line.put("\n");
}

/// Puts the lines of names that are cut, and of locals that are dropped for their names.
fn put_remarks(text: &mut Text, path: Path<'_>, remarks: &[Remark<'_>]) {
    for remark in remarks {
        match *remark {
            Remark::Cut(name) => {
                let (whole, cut) = (Printable(name), Printable(&name[..name.len().min(8)]));
                text.say(format_args!("{NAME}: {path}: {whole} is cut to {cut}\n"));
            }
            Remark::Dropped(name, other) => {
                let (local, other) = (Printable(name), Printable(other));
                text.say(format_args!(
                    "{NAME}: {path}: the local {local} is dropped, being equal to {other} in eight bytes\n"
                ));
            }
        }
    }
}

/// What becomes of the names of the files, with these locals, unless it is to be quiet.
pub(crate) fn all_remarks(
    alloc: Global,
    locals: Option<Locals>,
    targets: &[Target],
) -> Result<Vec<u8>, AllocError> {
    let mut text = Text::new(alloc);
    if let Some(locals) = locals {
        for target in targets {
            let source = &target.source;
            match remarks(alloc, &source.bytes, locals) {
                Ok(remarks) => put_remarks(&mut text, Path(source.from.as_str()), &remarks),
                Err(Refusal::Memory(refused)) => return Err(AllocError::from(refused)),
                Err(_) => {}
            }
        }
    }
    text.finish()
}
