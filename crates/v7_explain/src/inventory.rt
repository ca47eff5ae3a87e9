//! Files in an inventory, a line each. Only tested: the lines.
ghost use Rattle.std.specs.Prelude.{IfOk};
ghost use Rattle.v7_explain.specs.Files.{HasStatus};

use crate::file_kind::FileKind;
use crate::inventory_line::{put_inventory_row, put_inventory_totals};
use crate::inventory_row::{InventoryRow, file_row, plain_row, refused_row};
use crate::source::{Source, put_text_line};
use aout_core::{File, FileFault, ReadFault, object_fault};
use checks::{wrong_bytes, wrong_in};
use host::{Answer, Path};
use std::alloc::{AllocError, Global};
use texts::Text;

/// The line for a path. Its status is 0, whatever the file is.
pub(crate) fn row_answer(
    alloc: Global,
    path: &str,
    row: &InventoryRow,
) -> Result<Answer, AllocError>
    ensures { IfOk result (λ answer. HasStatus 0 answer) }
{
    let mut text = Text::new(alloc);
    let path = format!(in alloc; "{}", Path(path))?;
    put_inventory_row(&mut text, row, path.as_str());
    Ok(Answer {
        output: text.finish()?,
        errors: Vec::new(alloc),
        status: 0,
    })
}

/// The line of the bytes of a file, as they were read.
pub(crate) fn inventory_answer(
    alloc: Global,
    source: Source<'_>,
    read: &Result<File, ReadFault>,
) -> Result<Answer, AllocError>
    ensures { IfOk result (λ answer. HasStatus 0 answer) }
{
    let bytes = source.bytes;
    let row = match read {
        Ok(file) => {
            let wrong = wrong_in(alloc, file, object_fault(file))?;
            file_row(alloc, bytes, file, &wrong)?
        }
        Err(fault) => {
            let wrong = wrong_bytes(alloc, bytes, *fault)?;
            refused_row(alloc, bytes, *fault, &wrong)?
        }
    };
    row_answer(alloc, source.path, &row)
}

/// The line of a path that can't be opened, since a name in it is not UTF-8, and the error.
pub(crate) fn unnamed_answer(alloc: Global, path: &str) -> Result<Answer, AllocError>
    ensures { IfOk result (λ answer. HasStatus 2 answer) }
{
    let line = row_answer(alloc, path, &plain_row(FileKind::NotUtf8))?;
    let mut errors = Text::new(alloc);
    put_text_line(&mut errors, path, FileFault::NotOpened);
    Ok(Answer {
        output: line.output,
        errors: errors.finish()?,
        status: 2,
    })
}

/// An inventory with the line of its totals.
pub(crate) fn totalled(alloc: Global, said: Answer) -> Result<Answer, AllocError>
    ensures { IfOk result (λ answer. HasStatus said.status answer) }
{
    let mut text = Text::new(alloc);
    put_inventory_totals(&mut text, &said.output);
    let line = text.finish()?;
    let mut said = said;
    said.output.extend_from_slice(&line)?;
    Ok(said)
}
