//! A line of an inventory.

use crate::file_kind::kind_text;
use crate::inventory_row::{Condition, InventoryRow};
use listings::put_printed;
use texts::Text;

/// Appends a column of a number, or of a hyphen.
fn put_number(text: &mut Text, number: Option<u64>) {
    match number {
        Some(number) => text.say(format_args!("{number:>7}")),
        None => text.put("      -"),
    }
}

/// Appends a column of what is wrong or odd.
fn put_condition(text: &mut Text, condition: Condition) {
    let mut column = Text::new(text.allocator());
    match condition {
        Condition::NotExamined => column.put("-"),
        Condition::DamagedAt(place) => column.say(format_args!("damaged at {place:06o}")),
        Condition::Odd(0) => column.put("ok"),
        Condition::Odd(count) => column.say(format_args!("{count} odd")),
    }
    text.put("  ");
    match column.finish() {
        Ok(column) => text.put_at_left(17, &column),
        Err(error) => text.cut(error),
    }
}

/// Appends the line of a file with this path: its kind, the sizes of text, data and bss in bytes, how many symbols it has, how many
/// names another object has to define, what is wrong or odd, and the path.
pub(crate) fn put_inventory_row(text: &mut Text, row: &InventoryRow, path: &str) {
    let (sizes, symbols) = (row.sizes, row.symbols);
    text.put_at_left(12, kind_text(row.kind).as_bytes());
    put_number(text, sizes.map(|sizes| u64::from(sizes.text)));
    put_number(text, sizes.map(|sizes| u64::from(sizes.data)));
    put_number(text, sizes.map(|sizes| u64::from(sizes.bss)));
    put_number(text, symbols.map(|symbols| symbols.all as u64));
    put_number(text, symbols.map(|symbols| symbols.undefined as u64));
    put_condition(text, row.condition);
    text.put("  ");
    put_printed(text, path.as_bytes());
    text.put("\n");
}

/// Appends the line of totals of the rows of an inventory: how many there are, and how many are ok, odd and damaged.
pub(crate) fn put_inventory_totals(text: &mut Text, rows: &[u8]) {
    let (mut files, mut ok, mut odd, mut damaged) = (0u64, 0u64, 0u64, 0u64);
    for row in rows.split(|byte| *byte == b'\n') {
        // the column of what is wrong or odd
        match row.get(49..) {
            None => continue,
            Some([b'o', ..]) => ok = ok.saturating_add(1),
            Some([b'd', ..]) => damaged = damaged.saturating_add(1),
            Some([b'0'..=b'9', ..]) => odd = odd.saturating_add(1),
            Some(_) => {}
        }
        files = files.saturating_add(1);
    }
    text.say(format_args!("total {files}: {ok} ok, {odd} odd, {damaged} damaged\n"));
}
