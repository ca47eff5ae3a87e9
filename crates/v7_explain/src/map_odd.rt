//! What is odd in a link, and that none of its objects shows alone. Only tested: all of it.

use crate::mapped::Mapped;
use aout_core::{Name, Part, Segment};
use indexmap::IndexSet;
use instructions::Instruction;
use link_maps::{ReferringWord, Use, is_any_definition, prevailing_symbol, stays_undefined};
use std::alloc::AllocError;
use texts::{Printable, Text};

/// Adds what is odd, if anything is.
pub(crate) fn put_oddities(text: &mut Text, mapped: &Mapped<'_>) -> Result<(), AllocError> {
    let alloc = text.allocator();
    let (mut missing, mut there) = (IndexSet::new(alloc), IndexSet::new(alloc));
    for uses in &mapped.groups {
        if let Some(first) = uses.first() {
            if stays_undefined(uses) {
                missing.insert(first.symbol.name)?;
            } else if is_any_definition(uses) || uses.iter().any(|used| used.is_common()) {
                there.insert(first.symbol.name)?;
            }
        }
    }
    let mut odd = Text::new(alloc);
    for uses in &mapped.groups {
        if let Some(first) = uses.first() {
            let name = &first.symbol.name;
            let other = &underscored(name);
            put_calls(&mut odd, mapped, name, uses);
            if name.as_bytes().len() == 8 && any_differ(uses) {
                let name = Printable(name.as_bytes());
                odd.say(format_args!("  {name}: perhaps two names, cut to eight bytes\n"));
            }
            for (one, two) in [(name, other), (other, name)] {
                if missing.contains(one) && there.contains(two) {
                    let (one, two) = (Printable(one.as_bytes()), Printable(two.as_bytes()));
                    odd.say(format_args!("  {one}: undefined; there is {two}\n"));
                }
            }
        }
    }
    let found = odd.finish()?;
    if !found.is_empty() {
        text.put("\nOdd\n");
        text.put_bytes(&found);
    }
    Ok(())
}

/// A name after a `_`, of which the format keeps eight bytes.
fn underscored(name: &Name) -> Name {
    let text = name.as_bytes();
    let mut bytes = [b'_'; 9];
    bytes[1..text.len() + 1].copy_from_slice(text);
    Name::from_bytes(&bytes[..text.len() + 1])
}

/// Adds the calls of a name that the link has in data or bss, or as a common, but for those in an object that defines it.
fn put_calls(text: &mut Text, mapped: &Mapped<'_>, name: &Name, uses: &[Use]) {
    let is_stored = prevailing_symbol(uses).is_some_and(|symbol| match symbol.segment() {
        Segment::DataSeg | Segment::BssSeg => true,
        segment => segment == Segment::Undefined && symbol.value != 0,
    });
    for used in uses
        .iter()
        .filter(|used| is_stored && !used.is_definition())
    {
        let number = used.object.unwrap_or(usize::MAX);
        let (Some(file), Some(places)) = (mapped.files.get(number), mapped.map.places.get(number))
        else {
            continue;
        };
        for word in &used.references {
            if is_call(file.file().text_words(), word) {
                let (name, path) = (Printable(name.as_bytes()), mapped.path(used.object));
                let at = places.address(Part::Text, word.offset);
                text.say(format_args!("  {name}: data, and called at text {at:06o} in {path}\n"));
            }
        }
    }
}

/// Whether a word is the operand word of `jsr` or `jmp` by modes 37 and 67, which go to the address in it. (the handbook of the PDP-11/70)
fn is_call(words: &[u16], word: &ReferringWord) -> bool {
    if !matches!(word.part, Part::Text) || word.offset <= word.line {
        return false;
    }
    let first = words.get(usize::from(word.line / 2)).copied().unwrap_or(0);
    Instruction::from_first_word(first).is_some_and(|instruction| {
        instruction.row.operation.jumps() && (first % 0o100 == 0o37 || first % 0o100 == 0o67)
    })
}

/// Whether two of the uses of a name may be of two names: symbols of one object, two definitions, or commons of different sizes.
fn any_differ(uses: &[Use]) -> bool {
    uses.iter().enumerate().any(|(number, one)| {
        uses.iter().take(number).any(|other| {
            (one.object.is_some() && one.object == other.object)
                || (one.is_definition() && other.is_definition())
                || (one.is_common() && other.is_common() && one.symbol.value != other.symbol.value)
        })
    })
}
