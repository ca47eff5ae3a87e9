//! Names of the map: who defines a name, who makes it a common, and who uses it. Only tested: the text.
use crate::asked::{Asked, octal_number};
use crate::mapped::Mapped;
use aout_core::{Header, Name, Part, Segment, Symbol};
use disassemblies::NamedFile;
use instructions::Reference;
use link_maps::{
    Places, ReferringWord, Use, is_mention, prevailing_symbol, put_line_of, stays_undefined,
    word_at, words_to,
};
use std::alloc::AllocError;
use std::collections::BTreeMap;
use symtools::{letter, value_column};
use texts::{Printable, Text};

/// What is before the line of a word in a map.
pub(crate) const INDENT: &str = "                ";

/// The title of words that may reach what a name names.
const PERHAPS: &str = "perhaps in";

/// Which names a part of the map has.
#[derive(Clone, Copy)]
pub(crate) enum Section {
    /// Those that stay undefined.
    Undefined,
    /// Those that are multiply defined.
    Multiple,
    /// All externals.
    All,
    /// Those that are asked for.
    Asked,
    /// Those that an object defines and nothing uses.
    Unused,
    /// Those that the object with this number defines.
    Defined(usize),
    /// Those that it needs: it has a symbol that does not define them.
    Needed(usize),
}

/// Whether a part has the name of these uses.
fn has_name(mapped: &Mapped<'_>, section: Section, name: &Name, uses: &[Use]) -> bool {
    let asked = mapped.asked;
    match section {
        Section::Undefined => stays_undefined(uses),
        Section::Multiple => mapped.map.is_multiple(&mapped.objects.session, name),
        Section::All => true,
        Section::Asked => asked.names.contains(name),
        Section::Unused => mapped.map.is_unused(&mapped.objects.session, uses),
        Section::Defined(object) => uses
            .iter()
            .any(|used| used.object == Some(object) && used.is_definition()),
        Section::Needed(object) => uses.iter().any(|used| used.object == Some(object)
            && !used.is_definition()),
    }
}

/// Adds an address with its segment, and the label before it, if there is one.
pub(crate) fn put_place(text: &mut Text, segment: &str, address: u64, before: &Option<Reference>) {
    text.say(format_args!("{segment} {address:06o}"));
    if let Some(before) = before {
        put_label(text, "  ", before);
    }
}

/// Adds a label with how far beyond it something is.
fn put_label(text: &mut Text, blanks: &str, label: &Reference) {
    text.say(format_args!("{blanks}{}", Printable(label.name.as_bytes())));
    if label.offset > 0 {
        text.say(format_args!("+{:o}", label.offset));
    }
}

/// Adds the label nearest to the line of a word of text, if that is of no function: a place in the function before it.
fn put_inner_label(text: &mut Text, file: &NamedFile<'_>, word: &ReferringWord) {
    let nearest = file.names().nearest_label(Segment::TextSeg, word.line);
    if let (Part::Text, Some(function), Some(label)) = (word.part, word.before, nearest)
        && label.name != function.name
    {
        put_label(text, ", ", &label);
    }
}

fn label_of(part: Part) -> &'static str {
    match part {
        Part::Text => "text",
        Part::Data => "data",
    }
}

/// Adds what follows the place of a word: of text the instruction; and how many bytes beyond a name it leads.
fn put_rest(text: &mut Text, file: &NamedFile<'_>, address: u64, word: &ReferringWord) {
    if word.part == Part::Text {
        if word.before.is_none() {
            let line = address.saturating_sub(u64::from(word.offset.saturating_sub(word.line)));
            text.say(format_args!("  {line:06o}"));
        }
        text.put(": ");
        put_line_of(text, file, word);
    }
    if word.inside > 0 {
        text.say(format_args!(" / +{:o}", word.inside));
    }
    text.put("\n");
}

/// Adds the line of the word of a part so many bytes after its first.
pub(crate) fn put_word(
    text: &mut Text,
    file: &NamedFile<'_>,
    part: Part,
    offset: u16,
    address: u64,
) -> Result<(), AllocError> {
    let word = word_at(text.allocator(), file.file(), part, offset)?;
    put_place(text, label_of(part), address, &word.before);
    put_inner_label(text, file, &word);
    put_rest(text, file, address, &word);
    Ok(())
}

/// Adds the lines of these words.
pub(crate) fn put_words(
    text: &mut Text,
    file: &NamedFile<'_>,
    places: &Places,
    words: &[ReferringWord],
) {
    for word in words {
        let address = places.address(word.part, word.offset);
        text.put(INDENT);
        put_place(text, label_of(word.part), address, &word.before);
        put_rest(text, file, address, word);
    }
}

/// Adds the objects that define a name, and those that make it a common.
fn put_sources(text: &mut Text, mapped: &Mapped<'_>, uses: &[Use]) {
    let mut is_again = false;
    for used in uses.iter().filter(|used| used.is_definition()) {
        let label = if is_again { "again in" } else { "defined in" };
        let path = mapped.path(used.object);
        text.say(format_args!("    {label:<12}{path}\n"));
        is_again = true;
    }
    for used in uses.iter().filter(|used| used.is_common()) {
        let (path, size) = (mapped.path(used.object), used.symbol.value);
        text.say(format_args!("    common in   {path} ({size})\n"));
    }
}

/// The first name of each address of an object, by the number of the object, the type and the value: the words are under it.
type Shown = BTreeMap<(usize, u16, u16), Name>;

/// The name of the same address under which the words of a use are, if one was before; else its own name from now on.
fn name_above(text: &mut Text, shown: &mut Shown, object: usize, used: &Use) -> Option<Name> {
    let symbol = used.symbol;
    if !used.is_definition() {
        return None;
    }
    let address = (object, symbol.masked_type(), symbol.value);
    if let Some(first) = shown.get(&address) {
        return Some(*first);
    }
    if let Err(error) = shown.insert(address, symbol.name) {
        text.cut(AllocError::from(error));
    }
    None
}

/// Adds how many words of an object use a name, and the words, or the name of the same address under which they are.
fn put_uses(
    text: &mut Text,
    mapped: &Mapped<'_>,
    object: usize,
    label: &str,
    words: &[ReferringWord],
    above: Option<&Name>,
) {
    let (path, count) = (mapped.path(Some(object)), words.len());
    text.say(format_args!("    {label:<12}{path} ({count})\n"));
    if let Some(first) = above {
        text.say(format_args!("{INDENT}as {}\n", Printable(first.as_bytes())));
    } else if let (Some(places), Some(file)) = (
        mapped.map.places.get(object),
        mapped.files.get(object),
    ) {
        put_words(text, file, places, words);
    }
}

/// Adds the objects that use a name, each with the words that lead to it, and apart from these those that may reach what it names.
fn put_mentions(text: &mut Text, mapped: &Mapped<'_>, shown: &mut Shown, uses: &[Use]) {
    for used in uses.iter().filter(|used| is_mention(used)) {
        let Some(object) = used.object else {
            text.put("    used in     -u\n");
            continue;
        };
        let above = name_above(text, shown, object, used);
        if !used.is_definition() || !used.references.is_empty() {
            put_uses(
                text,
                mapped,
                object,
                "used in",
                &used.references,
                above.as_ref(),
            );
        }
        if !used.near.is_empty() {
            put_uses(text, mapped, object, PERHAPS, &used.near, above.as_ref());
        }
    }
}

/// Adds the line of a name as `nm` has it; without its address if the link is refused.
pub(crate) fn put_line(text: &mut Text, row: Option<Symbol>, symbol: &Symbol) {
    match row {
        Some(row) => {
            text.put_bytes(&value_column(&row));
            text.say(format_args!(" {} ", letter(&row) as char));
        }
        None => text.say(format_args!("       {} ", letter(symbol) as char)),
    }
    text.say(format_args!("{}\n", Printable(symbol.name.as_bytes())));
}

/// Adds a part of the map, if it has a name: its title, and the names in their order, each with its line, who has it and who needs it. Returns
/// the title, or nothing if it is there.
pub(crate) fn put_section<'a>(
    text: &mut Text,
    mapped: &Mapped<'_>,
    section: Section,
    title: &'a str,
) -> &'a str {
    let mut shown = Shown::new(text.allocator());
    let mut title = title;
    for uses in &mapped.groups {
        if let Some(symbol) = prevailing_symbol(uses)
            && has_name(mapped, section, &symbol.name, uses)
        {
            text.put(title);
            title = "";
            put_line(text, mapped.row(&symbol.name), &symbol);
            if !matches!(section, Section::Defined(_)) {
                put_sources(text, mapped, uses);
            }
            if !matches!(section, Section::Needed(_)) {
                put_mentions(text, mapped, &mut shown, uses);
            }
        }
    }
    title
}

/// A local of an object with its address in the link.
fn moved(symbol: &Symbol, header: &Header, places: &Places) -> Symbol {
    let text_size = u64::from(header.text_size);
    let (start, own) = match symbol.segment() {
        Segment::TextSeg => (places.text, 0),
        Segment::DataSeg => (places.data, text_size),
        Segment::BssSeg => (places.bss, text_size + u64::from(header.data_size)),
        _ => (0, 0),
    };
    let address = start
        .wrapping_add(u64::from(symbol.value))
        .wrapping_sub(own);
    Symbol {
        value: (address % 65536) as u16,
        ..*symbol
    }
}

/// Adds the locals that are asked for, if there is one: the address in the link, and the words that lead to it.
pub(crate) fn put_statics(text: &mut Text, mapped: &Mapped<'_>) -> Result<(), AllocError> {
    let asked = mapped.asked;
    let mut is_titled = false;
    for (object, (named, places)) in mapped.files.iter().zip(&mapped.map.places).enumerate() {
        let (file, path) = (named.file(), mapped.path(Some(object)));
        for (number, symbol) in file.symbols().iter().enumerate() {
            if symbol.is_external() || !asked.names.contains(&symbol.name) {
                continue;
            }
            if !is_titled {
                text.put("\nStatics\n");
            }
            is_titled = true;
            put_line(text, Some(moved(symbol, file.header(), places)), symbol);
            text.say(format_args!("    defined in  {path}\n"));
            let found = words_to(text.allocator(), file, number)?;
            for (label, words) in [("used in", &found.references), (PERHAPS, &found.near)] {
                if !words.is_empty() {
                    put_uses(text, mapped, object, label, words, None);
                }
            }
        }
    }
    Ok(())
}

/// Adds the arguments that the link does not have, of addresses or of others, under a title, which is empty if it is there.
pub(crate) fn put_absent(text: &mut Text, asked: &Asked, is_address: bool, title: &str) {
    let mut title = title;
    for argument in &asked.absent {
        if octal_number(argument.as_bytes()).is_some() == is_address {
            let shown = Printable(argument.as_bytes());
            text.put(title);
            text.say(format_args!("  {shown}: not mentioned\n"));
            title = "";
        }
    }
}
