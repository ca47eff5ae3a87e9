//! The functions of a program that has no symbols of text. Only tested.

use aout_core::{File, Header, Name, Parts, Segment, Symbol};
use disassemblies::{is_start, line_starts};
use instructions::Decoder;
use std::alloc::{AllocError, Global};
use texts::{Text, six_digits};

/// A function, and the place of text that calls it; its own, if it shows by itself that it is one.
type Shown = (u16, u16);

/// Adds what the instruction at a place of text shows: where `jsr pc` leads within text, or that `jsr r5,csv` is there, with which each
/// function of the Seventh Edition's C compiler begins. That csv begins with `mov r5,r0` and `mov sp,r5`.
fn put_shown(shown: &mut Vec<Shown>, words: &[u16], place: usize) -> Result<(), AllocError> {
    let Some([first, operand]) = words.get(place..place.wrapping_add(2)) else {
        return Ok(());
    };
    let at = (place.wrapping_mul(2) % 65536) as u16;
    let target = match *first {
        0o004737 => *operand,
        _ => operand.wrapping_add(at).wrapping_add(4),
    };
    let led_to = words.get(usize::from(target / 2)..).unwrap_or(&[]);
    if target % 2 == 1 {
        return Ok(());
    }
    match (*first, led_to) {
        (0o004567, [0o010500, 0o010605, ..]) => {
            shown.extend_from_slice(&[(at, at), (target, target)])
        }
        (0o004737 | 0o004767, [_, ..]) => shown.extend_from_slice(&[(target, at)]),
        _ => Ok(()),
    }
}

/// What the text of a file shows, in the order of the functions. An error: out of memory.
fn shown_in(alloc: Global, file: &File) -> Result<Vec<Shown>, AllocError> {
    let starts = line_starts(alloc, Decoder::Unix, file)?;
    let mut shown = Vec::new(alloc);
    for place in 0..file.text_words().len() {
        if is_start(&starts, place) {
            put_shown(&mut shown, file.text_words(), place)?;
        }
    }
    shown.sort_by_key(|shown| *shown)?;
    Ok(shown)
}

fn symbol_of(function: u16) -> Symbol {
    let mut name = *b"f_000000";
    name[2..].copy_from_slice(&six_digits(u32::from(function)));
    Symbol {
        name: Name::from_bytes(&name),
        type_bits: 0o42,
        value: function,
    }
}

/// A program that has no symbols of text, with an external for each function, as `f_000034` at 000034; nothing for any other file, or if
/// a table has no room for so many. An error: out of memory.
pub(crate) fn with_functions(alloc: Global, file: &File) -> Result<Option<File>, AllocError> {
    let is_named = file
        .symbols()
        .iter()
        .any(|symbol| symbol.is_of(Segment::TextSeg));
    if file.header().flag == 0 || is_named {
        return Ok(None);
    }
    let mut symbols = Vec::from_slice(alloc, file.symbols())?;
    let mut last = None;
    let shown = shown_in(alloc, file)?;
    for (function, _) in shown.iter().copied() {
        if last != Some(function) {
            symbols.push(symbol_of(function))?;
        }
        last = Some(function);
    }
    let parts = Parts {
        header: Header {
            symbol_size: (symbols.len().wrapping_mul(12) % 65536) as u16,
            ..*file.header()
        },
        text_words: Vec::from_slice(alloc, file.text_words())?,
        data_words: Vec::from_slice(alloc, file.data_words())?,
        text_reloc: Vec::new(alloc),
        data_reloc: Vec::new(alloc),
        symbols,
    };
    if parts.fits() {
        return Ok(Some(File::from_parts(parts)));
    }
    Ok(None)
}

/// Adds a remark for each function of such a program: its name, and the places that call it. An error: out of memory.
pub(crate) fn put_functions(text: &mut Text, file: &File) -> Result<(), AllocError> {
    let mut last = None;
    let shown = shown_in(text.allocator(), file)?;
    for (function, caller) in shown.iter().copied() {
        if last.is_none() {
            text.put("/ functions, and where they are called");
        }
        if last != Some(function) {
            text.say(format_args!("\n/ f_{function:06o}"));
        }
        if caller != function {
            text.say(format_args!(" {caller:06o}"));
        }
        last = Some(function);
    }
    if last.is_some() {
        text.put("\n");
    }
    Ok(())
}
