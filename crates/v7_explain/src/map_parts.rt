//! The parts of a map but for its names: what becomes of the link, its limits, its segments and its objects. Only tested: the text.
use crate::map_names::{Section, put_section};
use crate::mapped::Mapped;
use aout_core::Header;
use host::Path;
use link_maps::{LimitRecord, LinkMap, Listed, Places, limits_of};
use link_out::Options;
use std::alloc::AllocError;
use texts::{Printable, Text};

/// How many of the largest objects are shown.
const LARGEST: usize = 10;
/// How many columns a path has after the numbers of its object.
const PATH: usize = 33;
/// The title of the objects, with their columns.
const MEMBERS: &str = "\nObjects\n    text  bytes    data  bytes     bss  bytes\n";

/// Adds how many objects there are, and what becomes of the link.
pub(crate) fn put_head(text: &mut Text, mapped: &Mapped<'_>) {
    let count = mapped.all.len();
    let s = if count == 1 { "" } else { "s" };
    text.say(format_args!("Link of {count} object{s}: "));
    if let Some(refused) = &mapped.objects.refused {
        let path = refused
            .left
            .first()
            .map_or("", |first| first.label.as_str());
        let why = refused.cause.text();
        text.say(format_args!("refused, {why} at\n  {}\n", Path(path)));
        text.put("  (addresses below count from 0 in each segment)\n");
    } else if let Some(Err(fault)) = mapped.map.outcome.as_ref().map(|outcome| &outcome.linked) {
        text.say(format_args!("refused, {}\n", fault.text()));
    } else if let Some(linked) = mapped.map.linked() {
        let Header {
            magic,
            entry_point,
            ..
        } = *linked.file.header();
        let what = if linked.report.status() == 0 {
            "nothing"
        } else {
            "something"
        };
        text.say(format_args!("made, with {what} to report\n"));
        text.say(format_args!("  magic 0{magic:o}, entry point {entry_point:06o}\n"));
        if let Some(name) = &linked.report.entry_bad {
            let name = Printable(name.as_bytes());
            text.say(format_args!("  entry point not in text: {name}\n"));
        }
    }
}

/// Adds what is used of each limit, and what is left or over; and the largest objects of a link that is refused. (docs/LINK.md)
pub(crate) fn put_limits(
    text: &mut Text,
    mapped: &Mapped<'_>,
    options: &Options,
) -> Result<(), AllocError> {
    text.put("\nLimits              used      of    left\n");
    for limit in &limits_of(text.allocator(), mapped.map, mapped.objects, options)? {
        let label = match limit.kind {
            1 => "text",
            2 => "data",
            3 => "bss",
            4 => "end of bss",
            5 => "symbols",
            6 => "symbol number",
            _ => "externals",
        };
        let LimitRecord { used, most, .. } = *limit;
        let left = most.abs_diff(used);
        let over = if most < used { " over" } else { "" };
        text.say(format_args!("  {label:<14}{used:>8}{most:>8}{left:>8}{over}\n"));
    }
    if mapped.map.linked().is_none() {
        put_largest(text, mapped.all)?;
    }
    Ok(())
}

/// Adds the largest objects, the largest first; those of one size keep their order.
fn put_largest(text: &mut Text, all: &[Listed<'_>]) -> Result<(), AllocError> {
    let mut sized = Vec::new(text.allocator());
    for object in all {
        let header = object.file.header();
        let bytes = u32::from(header.text_size) + u32::from(header.data_size);
        sized.push((bytes + u32::from(header.bss_size), object))?;
    }
    sized.sort_by(|one, other| other.0.cmp(&one.0))?;
    sized.truncate(LARGEST);
    text.put("\nLargest objects\n     text    data     bss     all  symbols\n");
    for (bytes, object) in &sized {
        let (header, count) = (object.file.header(), object.file.symbols().len());
        let (words, data, bss) = (header.text_size, header.data_size, header.bss_size);
        text.say(format_args!("  {words:>7}{data:>8}{bss:>8}"));
        text.say(format_args!("{:>8}{count:>9}  {}\n", *bytes, Path(object.label)));
    }
    Ok(())
}

/// Adds where each segment begins and ends, and its size.
pub(crate) fn put_segments(text: &mut Text, map: &LinkMap) {
    let Some(outcome) = &map.outcome else {
        return;
    };
    let bases = &outcome.bases;
    text.put("\nSegments    from     end   bytes\n");
    for (label, start, end) in [
        ("text", 0, bases.text_end),
        ("data", bases.data_start, bases.data_end),
        ("commons", bases.data_end, bases.bss_start),
        ("bss", bases.bss_start, bases.bss_end),
    ] {
        let bytes = end.saturating_sub(start);
        text.say(format_args!("  {label:<8}{start:06o}  {end:06o}{bytes:>8}\n"));
    }
}

/// Adds the line of an object: where its segments lie, and its path; a long path has a line of its own.
fn put_member(text: &mut Text, object: &Listed<'_>, at: &Places) {
    let header = object.file.header();
    text.say(format_args!("  {:06o}{:>7}", at.text, header.text_size));
    text.say(format_args!("  {:06o}{:>7}", at.data, header.data_size));
    text.say(format_args!("  {:06o}{:>7}", at.bss, header.bss_size));
    text.put(if PATH < object.label.len() {
        "\n    "
    } else {
        "  "
    });
    text.say(format_args!("{}\n", Path(object.label)));
}

/// Adds the objects.
pub(crate) fn put_members(text: &mut Text, mapped: &Mapped<'_>) {
    text.put(MEMBERS);
    for (object, at) in mapped.all.iter().zip(&mapped.map.places) {
        put_member(text, object, at);
    }
}

/// Adds the objects that have a path: where each lies, what it defines, and what it needs.
pub(crate) fn put_objects(text: &mut Text, mapped: &Mapped<'_>, path: &str) {
    for (number, (object, at)) in mapped.all.iter().zip(&mapped.map.places).enumerate() {
        if object.label == path {
            text.put(MEMBERS);
            put_member(text, object, at);
            put_section(text, mapped, Section::Defined(number), "\nDefines\n");
            put_section(text, mapped, Section::Needed(number), "\nNeeds\n");
        }
    }
}
