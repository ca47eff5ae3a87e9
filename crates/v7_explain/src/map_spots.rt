//! What a link has at the addresses that are asked for. Only tested: the text.
use crate::map_names::{INDENT, put_absent, put_place, put_word};
use crate::mapped::Mapped;
use aout_core::{Segment, Symbol};
use link_maps::{Spot, label_before};
use std::alloc::AllocError;
use texts::Text;

/// Adds an address of data or bss that is not shown as a word: its segment, and the label before its value among those of symbols.
pub(crate) fn put_byte(
    text: &mut Text,
    symbols: &[Symbol],
    label: &str,
    address: u64,
    value: u16,
) -> Result<(), AllocError> {
    let segment = if label == "data" {
        Segment::DataSeg
    } else {
        Segment::BssSeg
    };
    let before = label_before(text.allocator(), symbols, segment, value)?;
    put_place(text, label, address, &before);
    text.put("\n");
    Ok(())
}

/// Adds what a link has at an address, after the object that has it.
fn put_spot(text: &mut Text, mapped: &Mapped<'_>, spot: &Spot) -> Result<(), AllocError> {
    let (object, offset, part) = match *spot {
        Spot::Common(address) => {
            text.say(format_args!("    in          commons\n{INDENT}"));
            let value = (address % 65536) as u16;
            return put_byte(text, mapped.map.rows(), "commons", address, value);
        }
        Spot::Object {
            object,
            part,
            offset,
        } => (object, offset, part),
    };
    let path = mapped.path(Some(object));
    text.say(format_args!("    in          {path}\n{INDENT}"));
    let (Some(places), Some(named)) = (mapped.map.places.get(object), mapped.files.get(object))
    else {
        return Ok(());
    };
    if let Some(part) = part {
        return put_word(text, named, part, offset, places.address(part, offset));
    }
    let header = named.file().header();
    let value = offset
        .wrapping_add(header.text_size)
        .wrapping_add(header.data_size);
    let address = places.bss.saturating_add(u64::from(offset));
    put_byte(text, named.file().symbols(), "bss", address, value)
}

/// Adds what a link has at the addresses that are asked for, and those that it does not have.
pub(crate) fn put_spots(text: &mut Text, mapped: &Mapped<'_>) -> Result<(), AllocError> {
    let asked = mapped.asked;
    let mut title = "\nAddresses\n";
    for spot in &asked.spots {
        text.put(title);
        title = "";
        put_spot(text, mapped, spot)?;
    }
    put_absent(text, asked, true, title);
    Ok(())
}
