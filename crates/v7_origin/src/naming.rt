//! The symbols that objects give a program.
ghost use Rattle.std.specs.Prelude.{◌≡◌, take};
ghost use Rattle.v7_origin.specs.Runs.{with_symbols};

use crate::candidates::Trial;
use crate::known::Row;
use aout_core::{File, Segment, Symbol};
use std::alloc::AllocError;

/// The most symbols that a file has. (a.out(5))
const MOST_ROWS: usize = 5461;

/// A symbol that an object defines, at its address in the program, if that is known.
fn moved(program: &File, object: &File, row: &Row, symbol: &Symbol) -> Option<Symbol> {
    let own = match symbol.segment() {
        Segment::Absolute => 0,
        Segment::TextSeg => row.text,
        Segment::DataSeg => {
            let start = (program.header().data_start() % 65536) as u16;
            start
                .wrapping_add(row.place?)
                .wrapping_sub(object.header().text_size)
        }
        Segment::BssSeg => row.bss?,
        Segment::Undefined | Segment::Other => return None,
    };
    Some(Symbol {
        value: symbol.value.wrapping_add(own),
        ..*symbol
    })
}

/// The symbols of objects that were found: locals, if they are wanted, and then externals.
pub(crate) fn symbols_of(
    trial: &Trial<'_>,
    rows: &[Row],
    with_locals: bool,
) -> Result<Vec<Symbol>, AllocError> {
    let mut locals = Vec::new(trial.alloc);
    let mut externals = Vec::new(trial.alloc);
    for row in rows {
        let Some(candidate) = trial.all.get(row.candidate) else {
            continue;
        };
        let object = candidate.object.file();
        for symbol in object.symbols() {
            match moved(trial.program, object, row, symbol) {
                Some(moved) if moved.is_external() => externals.push(moved)?,
                Some(moved) if with_locals => locals.push(moved)?,
                _ => {}
            }
        }
    }
    locals.extend_from_slice(&externals)?;
    Ok(locals)
}

/// A file with other symbols, as many as a file has at most.
pub(crate) fn named(file: File, symbols: Vec<Symbol>) -> File
    ensures { result ≡ with_symbols file (take 5461 symbols.items) }
{
    let mut rows = symbols;
    rows.truncate(MOST_ROWS);
    let mut parts = file.into_parts();
    parts.header.symbol_size = (12 * rows.len()) as u16;
    parts.symbols = rows;
    File::from_parts(parts)
}
