//! What an inventory says of a file: what it is, its sizes, its symbols, and what is wrong or odd in it.

use crate::file_kind::{FileKind, file_kind};
use aout_core::{File, Header, ReadFault, Symbol};
use checks::{Evidence, Finding, all_odd_of, header_of, is_of_gnu, other_form};
use disassemblies::Sweep;
use std::alloc::{AllocError, Global};

/// The sizes of segments in bytes.
#[derive(Clone, Copy, Debug, PartialEq, Eq)]
pub(crate) struct SegmentSizes {
    pub(crate) text: u16,
    pub(crate) data: u16,
    pub(crate) bss: u16,
}

/// How many symbols there are, and how many of them are names that another object has to define.
#[derive(Clone, Copy, Debug, PartialEq, Eq)]
pub(crate) struct SymbolCounts {
    pub(crate) all: usize,
    pub(crate) undefined: usize,
}

/// What is wrong or odd in a file.
#[derive(Clone, Copy, Debug, PartialEq, Eq)]
pub(crate) enum Condition {
    /// It is not looked for.
    NotExamined,
    /// The file is damaged, first at this byte.
    DamagedAt(usize),
    /// Nothing is wrong, and so many things are odd.
    Odd(usize),
}

/// What an inventory says of a file. `None` is for numbers that a kind of file does not have, or that are not counted.
#[derive(Clone, Copy, Debug, PartialEq, Eq)]
pub(crate) struct InventoryRow {
    pub(crate) kind: FileKind,
    pub(crate) sizes: Option<SegmentSizes>,
    pub(crate) symbols: Option<SymbolCounts>,
    pub(crate) condition: Condition,
}

fn sizes_in(header: &Header) -> SegmentSizes {
    SegmentSizes {
        text: header.text_size,
        data: header.data_size,
        bss: header.bss_size,
    }
}

/// How many symbols there are, and how many are undefined and no common.
fn counts_of(symbols: &[Symbol]) -> SymbolCounts {
    let wanted = symbols
        .iter()
        .filter(|symbol| symbol.is_undefined() && symbol.value == 0);
    SymbolCounts {
        all: symbols.len(),
        undefined: wanted.count(),
    }
}

/// How many things are odd.
fn odd_count(alloc: Global, bytes: &[u8], file: &File) -> Result<usize, AllocError> {
    let sweep = Sweep::new(alloc, file)?;
    let odd = all_odd_of(alloc, Evidence::Flow, bytes, &sweep, true)?;
    Ok(odd.len())
}

/// That a file is damaged, if anything is wrong, or how many things are odd.
fn condition_of(wrong: &[Finding], count: usize) -> Condition {
    match wrong {
        [] => Condition::Odd(count),
        [first, ..] => Condition::DamagedAt(first.place),
    }
}

/// The row of what has only a kind.
pub(crate) fn plain_row(kind: FileKind) -> InventoryRow {
    InventoryRow {
        kind,
        sizes: None,
        symbols: None,
        condition: Condition::NotExamined,
    }
}

/// The row of an object in the form of GNU's assembler.
fn gnu_row(header: Option<Header>) -> InventoryRow {
    InventoryRow {
        sizes: header.map(|header| sizes_in(&header)),
        ..plain_row(FileKind::GnuObject)
    }
}

/// The row of a file, of which this is wrong. An error: out of memory.
pub(crate) fn file_row(
    alloc: Global,
    bytes: &[u8],
    file: &File,
    wrong: &[Finding],
) -> Result<InventoryRow, AllocError> {
    let header = file.header();
    if is_of_gnu(alloc, bytes, false)? {
        return Ok(gnu_row(Some(*header)));
    }
    Ok(InventoryRow {
        kind: file_kind(header),
        sizes: Some(sizes_in(header)),
        symbols: Some(counts_of(file.symbols())),
        condition: condition_of(wrong, odd_count(alloc, bytes, file)?),
    })
}

/// The row of bytes that do not make a file for this reason, of which this is wrong. An error: out of memory.
pub(crate) fn refused_row(
    alloc: Global,
    bytes: &[u8],
    fault: ReadFault,
    wrong: &[Finding],
) -> Result<InventoryRow, AllocError> {
    let header = header_of(bytes);
    if is_of_gnu(alloc, bytes, true)? {
        return Ok(gnu_row(header));
    }
    match (fault, header) {
        (ReadFault::BadMagic | ReadFault::ShortHeader, _) | (_, None) => {
            Ok(plain_row(FileKind::OfForm(other_form(bytes))))
        }
        (_, Some(header)) => Ok(InventoryRow {
            sizes: Some(sizes_in(&header)),
            condition: condition_of(wrong, 0),
            ..plain_row(file_kind(&header))
        }),
    }
}
