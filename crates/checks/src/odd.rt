//! What is odd of a file, and not refused. Only tested: the texts of the findings.
ghost use Rattle.std.specs.Prelude.{◌≡◌, ◌^◌, ◌<◌, ◌&&◌, ◌||◌, not, false, None, Some, length, get_or, slice_get, take, if◌then◌else◌, bytes_eq, is_some, IfOk};
ghost use Rattle.std.specs.{Ordering.nat_cmp, Char.is_ascii_uppercase};
ghost use Rattle.std.specs.{Prelude.{OnOk, List, ℕ}, List.{flat_map, list_any}, BTreeMap.get, Cmp.Lexicographic.slice_cmp};
ghost use Rattle.aout_core.specs.{WellFormed.is_external, Placed.{placed_word, placed_words, relocs_of, words_of}};
ghost use Rattle.checks.specs.Odd.{after_name, first_alike, first_named, has_type, ignores_number, is_hidden, odd, odd_fields, odd_header};
ghost use Rattle.checks.specs.Odd.{odd_rest, odd_name, refers_to, is_used, is_mention, is_unused, is_placed, is_placed_local, is_like, has_similar, odd_mention, odd_reloc, odd_symbol, odd_symbols, odd_word};
ghost use Rattle.checks.specs.{Found.{each_found, Finds}, Segments.segment_meant, Outside.is_byte, internal.Marks.AreUsed};

use crate::finding::{Finding, FindingKind, Findings};
use crate::outside::{has_byte, is_sure_value, is_sure_word};
use crate::places::{FilePlaces, Outside, Title, has_address, range_of, segment_name, symbol_at};
use aout_core::{File, Header, Kind, Name, Part, Reloc, Segment, Symbol};
use disassemblies::Sweep;
use std::alloc::{AllocError, Global};
use std::collections::BTreeMap;
use texts::is_printable;

/// The segment that a kind of relocation word is for.
fn segment_meant(kind: Option<Kind>) -> Segment
    ensures { result ≡ segment_meant kind }
{
    match kind {
        Some(Kind::TextSeg) => Segment::TextSeg,
        Some(Kind::DataSeg) => Segment::DataSeg,
        Some(Kind::BssSeg) => Segment::BssSeg,
        Some(Kind::Absolute | Kind::External) | None => Segment::Undefined,
    }
}

/// Whether the bits of a relocation word above 17 are ignored.
fn ignores_number(kind: Option<Kind>) -> bool
    ensures { result ≡ ignores_number kind }
{
    !matches!(kind, None | Some(Kind::External))
}

/// Whether a name has a byte that does not print.
fn has_hidden(name: &[u8]) -> bool
    ensures { result ≡ list_any is_hidden name.now }
{
    name.iter()
        .any(|byte| !is_printable(*byte) && *byte != b'\\')
}

/// Whether the bytes of a name after its NUL are not NULs too.
fn has_rest(bytes: &[u8], place: usize, symbol: &Symbol) -> bool
    requires { place < 2 ^ 32 }
    ensures { result ≡ list_any is_byte (after_name bytes.now place symbol.now) }
{
    let used = symbol.name.as_bytes().len();
    let end = place + 8;
    if bytes.len() < end {
        return false;
    }
    has_byte(&bytes[place + used..end])
}

/// Whether the format has a type like that of a symbol.
fn has_type(symbol: &Symbol) -> bool
    ensures { result ≡ has_type symbol.now }
{
    let bits = symbol.masked_type();
    bits < 5 || bits == 0o24 || bits == 0o37
}

/// A file, the bytes that it was read from, and whether commons of odd sizes are wanted.
#[derive(Clone, Copy)]
struct Source<'a> {
    bytes: &'a [u8],
    sweep: &'a Sweep<'a>,
    commons: bool,
}

/// Adds what is odd of the name of a symbol, which an earlier external has first, if one has it.
fn find_name(
    findings: &mut Findings,
    bytes: &[u8],
    place: usize,
    first: Option<usize>,
    number: usize,
    symbol: &Symbol,
)
    requires { place < 2 ^ 32 }
    ensures { Finds findings.old findings.new (odd_name bytes.now (is_some first) place symbol.now) }
{
    use FindingKind::*;
    let title = Title { number, symbol };
    let name = symbol.name.as_bytes();
    let earlier = first.unwrap_or(0);
    findings.find_if(
        name.is_empty(),
        place,
        EmptyName,
        format_args!("{title} has an empty name"),
    );
    findings.find_if(
        has_hidden(name),
        place,
        UnprintableName,
        format_args!("{title} has bytes in its name that do not print"),
    );
    findings.find_if(
        has_rest(bytes, place, symbol),
        place,
        BytesAfterName,
        format_args!("{title} has bytes after the NUL of its name, which are ignored"),
    );
    findings.find_if(
        first.is_some(),
        place,
        RepeatedName,
        format_args!("{title} has the name of symbol {earlier}; names are equal in eight bytes"),
    );
}

/// Adds what is odd of the type and the value of a symbol.
fn find_fields(
    findings: &mut Findings,
    file: &File,
    commons: bool,
    place: usize,
    number: usize,
    symbol: &Symbol,
)
    requires { place < 2 ^ 32 }
    ensures { Finds findings.old findings.new (odd_fields commons file.now place symbol.now) }
{
    use FindingKind::*;
    let header = file.header();
    let title = Title { number, symbol };
    let (bits, value, segment) = (symbol.type_bits, symbol.value, symbol.segment());
    let (label, range) = (segment_name(segment), range_of(header, segment));
    let outside = Outside {
        segment,
        range,
        address: value,
    };
    findings.find_if(
        bits >= 0o100,
        place + 8,
        IgnoredTypeBits,
        format_args!("{title} has type {bits:06o}, of which the bits above 77 are ignored"),
    );
    findings.find_if(
        !has_type(symbol),
        place + 8,
        UnknownType,
        format_args!(
            "{title} has type {bits:06o}, which the format does not have; it is taken as absolute"
        ),
    );
    findings.find_if(
        commons && symbol.is_undefined() && value % 2 == 1,
        place + 10,
        OddCommon,
        format_args!(
            "{title} is undefined with value {value:06o}: a common of {value} bytes, rounded up to even"
        ),
    );
    findings.find_if(
        symbol.is_undefined() && value > 0o157777,
        place + 10,
        NoRoom,
        format_args!("{title} is a common of {value} bytes, which have no room in memory"),
    );
    let is_outside = !has_address(header, segment, value);
    findings.find_if_as(
        is_outside && is_sure_value(file, symbol),
        is_outside,
        place + 10,
        OutsideValue,
        format_args!("{title} of {label} has value {value:06o}, and {outside}"),
    );
}

/// Marks the symbol to which a relocation word refers.
fn mark_referent(used: &mut [bool], reloc: Reloc)
    ensures same { length used.new ≡ length used.old }
    ensures each { (i : ℕ) → i < length used.old → get_or used.new i false
        ≡ (get_or used.old i false || refers_to i reloc) }
{
    let number = usize::from(reloc.number());
    if reloc.0 / 2 % 8 == 4 && number < used.len() {
        used[number] = true;
    }
}

/// Marks the symbols to which relocation words refer.
fn mark_referents(used: &mut [bool], relocs: &[Reloc])
    ensures same { length used.new ≡ length used.old }
    ensures each { (i : ℕ) → i < length used.old → get_or used.new i false
        ≡ (get_or used.old i false || list_any (refers_to i) relocs.now) }
{
    for reloc in relocs {
        mark_referent(used, *reloc);
    }
}

/// For each symbol of a file, whether a relocation word refers to it. An error: out of memory.
fn used_in(alloc: Global, file: &File) -> Result<Vec<bool>, AllocError>
    ensures { IfOk result (λ used. AreUsed file.now used.items) }
{
    let mut used = vec![in alloc; false; file.symbols().len()]?;
    mark_referents(&mut used, file.text_reloc());
    mark_referents(&mut used, file.data_reloc());
    Ok(used)
}

/// Whether a symbol of an object is undefined, and no common.
fn is_mention(file: &File, symbol: &Symbol) -> bool
    ensures { result ≡ is_mention file.now symbol.now }
{
    file.header().flag == 0 && symbol.is_undefined() && symbol.value == 0
}

/// Whether a symbol of an object is undefined, and no word refers to it.
fn is_unused(file: &File, used: &[bool], number: usize, symbol: &Symbol) -> bool
    requires there { number < length used.now }
    requires used { get_or used.now number false ≡ is_used file.now number }
    ensures { result ≡ is_unused file.now number symbol.now }
{
    is_mention(file, symbol) && !used[number]
}

/// Whether a name has a capital letter.
fn has_capital(name: &[u8]) -> bool
    ensures { result ≡ list_any is_ascii_uppercase name.now }
{
    name.iter().any(|byte| byte.is_ascii_uppercase())
}

/// Whether a symbol is of text, data or bss.
fn is_placed(symbol: &Symbol) -> bool
    ensures { result ≡ is_placed symbol.now }
{
    let bits = symbol.masked_type();
    bits >= 2 && bits <= 4
}

/// Whether a symbol is a local of text, data or bss.
fn is_placed_local(symbol: &Symbol) -> bool
    ensures { result ≡ is_placed_local symbol.now }
{
    !symbol.is_external() && is_placed(symbol)
}

/// Whether a symbol of text, data or bss has another name of the same letters.
fn is_like(name: &[u8], symbol: &Symbol) -> bool
    ensures { result ≡ is_like name.now symbol.now }
{
    let own = symbol.name.as_bytes();
    is_placed(symbol) && own != name && own.eq_ignore_ascii_case(name)
}

/// Whether one of these symbols has another name of the same letters.
fn is_any_like(name: &[u8], symbols: &[Symbol]) -> bool
    ensures { result ≡ list_any (is_like name.now) symbols.now }
{
    symbols.iter().any(|other| is_like(name, other))
}

/// The numbers of the locals of text, data and bss by their names, of each name the first.
fn local_names(alloc: Global, symbols: &[Symbol]) -> Result<BTreeMap<Name, usize>, AllocError>
    ensures { IfOk result (λ locals. (name : List ℕ) → get (slice_cmp nat_cmp) locals name
        ≡ first_named is_placed_local name symbols.now) }
{
    let mut locals = BTreeMap::new(alloc);
    for (number, symbol) in symbols.iter().enumerate() {
        first_alike(&mut locals, is_placed_local(symbol), symbol.name, number)?;
    }
    Ok(locals)
}

/// Whether an undefined symbol of an object was probably meant to be another one.
fn has_similar(file: &File, locals: &BTreeMap<Name, usize>, symbol: &Symbol) -> bool
    requires locals { (name : List ℕ) → get (slice_cmp nat_cmp) locals.now name
        ≡ first_named is_placed_local name file.now.symbols }
    ensures { result ≡ has_similar file.now symbol.now }
{
    let name = symbol.name.as_bytes();
    is_mention(file, symbol)
        && (locals.get(&symbol.name).is_some()
            || (has_capital(name) && is_any_like(name, file.symbols())))
}

/// The number of the first such symbol.
fn first_similar(file: &File, locals: &BTreeMap<Name, usize>, symbol: &Symbol) -> usize {
    if let Some(number) = locals.get(&symbol.name) {
        return *number;
    }
    let name = symbol.name.as_bytes();
    let first = file.symbols().iter().position(|other| is_like(name, other));
    first.unwrap_or(0)
}

/// Adds an undefined symbol to which no word refers, or that was probably meant to be another one.
fn find_mention(
    findings: &mut Findings,
    file: &File,
    used: &[bool],
    locals: &BTreeMap<Name, usize>,
    place: usize,
    number: usize,
    symbol: &Symbol,
)
    requires there { number < length used.now }
    requires used { get_or used.now number false ≡ is_used file.now number }
    requires locals { (name : List ℕ) → get (slice_cmp nat_cmp) locals.now name
        ≡ first_named is_placed_local name file.now.symbols }
    ensures { Finds findings.old findings.new (odd_mention file.now place number symbol.now) }
{
    let title = Title { number, symbol };
    findings.find_if_as(
        false,
        is_unused(file, used, number, symbol),
        place,
        FindingKind::UnusedName,
        format_args!("{title} is undefined, and no word refers to it"),
    );
    if has_similar(file, locals, symbol) {
        let other = first_similar(file, locals, symbol);
        findings.find_if_as(
            false,
            true,
            place,
            FindingKind::SimilarName,
            format_args!("{title} is undefined, and symbol {other} of the same letters is not"),
        );
    }
}

/// Adds what is odd of a symbol, whose name an earlier one has first, if one has it.
fn find_symbol(
    findings: &mut Findings,
    source: &Source<'_>,
    used: &[bool],
    locals: &BTreeMap<Name, usize>,
    number: usize,
    first: Option<usize>,
    symbol: &Symbol,
)
    requires few { number < 65536 }
    requires there { number < length used.now }
    requires used { get_or used.now number false ≡ is_used source.now.sweep.now number }
    requires locals { (name : List ℕ) → get (slice_cmp nat_cmp) locals.now name
        ≡ first_named is_placed_local name source.now.sweep.now.symbols }
    requires first { first ≡ first_alike symbol.now (take number source.now.sweep.now.symbols) }
    ensures { Finds findings.old findings.new (odd_symbol source.now.commons source.now.sweep.now source.now.bytes.now
        (first_alike symbol.now (take number source.now.sweep.now.symbols)) number symbol.now) }
{
    let file = source.sweep.file();
    let header = file.header();
    let place = symbol_at(header, number);
    find_name(findings, source.bytes, place, first, number, symbol);
    find_fields(findings, file, source.commons, place, number, symbol);
    find_mention(findings, file, used, locals, place, number, symbol);
}

/// The number that was noted first with a name, which is noted if none was.
fn first_noted(
    seen: &mut BTreeMap<Name, usize>,
    name: Name,
    number: usize,
) -> Result<Option<usize>, AllocError>
    ensures first { IfOk result (λ first. first ≡ get (slice_cmp nat_cmp) seen.old name) }
    ensures noted { OnOk result ((other : List ℕ) → get (slice_cmp nat_cmp) seen.new other
        ≡ (if bytes_eq name other && not (is_some (get (slice_cmp nat_cmp) seen.old name))
        then Some number else get (slice_cmp nat_cmp) seen.old other)) }
{
    if let Some(first) = seen.get(&name) {
        return Ok(Some(*first));
    }
    seen.insert(name, number)?;
    Ok(None)
}

/// The number that was noted first with a name, which is noted if none was, if that is asked for.
fn first_alike(
    seen: &mut BTreeMap<Name, usize>,
    is_asked: bool,
    name: Name,
    number: usize,
) -> Result<Option<usize>, AllocError>
    ensures first { IfOk result (λ first. first ≡ (if is_asked
        then get (slice_cmp nat_cmp) seen.old name else None)) }
    ensures noted { OnOk result ((other : List ℕ) → get (slice_cmp nat_cmp) seen.new other
        ≡ (if (is_asked && bytes_eq name other) && not (is_some (get (slice_cmp nat_cmp) seen.old name))
        then Some number else get (slice_cmp nat_cmp) seen.old other)) }
{
    if !is_asked {
        return Ok(None);
    }
    first_noted(seen, name, number)
}

fn find_symbols(findings: &mut Findings, source: &Source<'_>)
    ensures { Finds findings.old findings.new
        (odd_symbols source.now.commons source.now.sweep.now source.now.bytes.now 0
        source.now.sweep.now.symbols) }
{
    let file = source.sweep.file();
    let (alloc, symbols) = (findings.allocator(), file.symbols());
    let mut seen = BTreeMap::new(alloc);
    let used = match used_in(alloc, file) {
        Ok(used) => used,
        Err(error) => return findings.cut(error),
    };
    let locals = match local_names(alloc, symbols) {
        Ok(locals) => locals,
        Err(error) => return findings.cut(error),
    };
    for (number, symbol) in symbols.iter().enumerate() {
        match first_alike(&mut seen, symbol.is_external(), symbol.name, number) {
            Ok(first) => find_symbol(findings, source, &used, &locals, number, first, symbol),
            Err(error) => return findings.cut(error),
        }
    }
}

fn find_word(findings: &mut Findings, sweep: &Sweep<'_>, part: Part, number: usize)
    requires { number < length (words_of sweep.now part) }
    ensures { Finds findings.old findings.new
        (odd_reloc sweep.now (placed_word sweep.now part number) (slice_get (relocs_of sweep.now part) number)) }
{
    let file = sweep.file();
    let at = file.placed_word(part, number);
    let Some(reloc) = at.reloc else {
        return;
    };
    let segment = segment_meant(reloc.kind());
    let (label, range) = (segment_name(segment), range_of(file.header(), segment));
    let target = reloc.target(at.word, at.address);
    let outside = Outside {
        segment,
        range,
        address: target,
    };
    let (bits, address) = (reloc.0, at.address);
    findings.find_if(
        bits >= 0o20 && ignores_number(reloc.kind()),
        at.reloc_place,
        FindingKind::IgnoredRelocationBits,
        format_args!(
            "relocation word {bits:06o} of the word at {address:06o}: bits above 17 are ignored"
        ),
    );
    if !has_address(file.header(), segment, target) {
        findings.find_outside(
            is_sure_word(sweep, part, number, segment, reloc, target),
            at.reloc_place,
            segment,
            format_args!(
                "the word at {address:06o} is of kind {label} and refers to {target:06o}; {outside}"
            ),
        );
    }
}

fn find_words(findings: &mut Findings, sweep: &Sweep<'_>, part: Part)
    ensures { Finds findings.old findings.new
        (flat_map (odd_word sweep.now) (placed_words sweep.now part)) }
{
    let words = sweep.file().words_of(part);
    for (number, _) in words.iter().enumerate() {
        find_word(findings, sweep, part, number);
    }
}

/// Adds bytes after the table of a file with this header. Zeros may fill a block.
fn find_rest(findings: &mut Findings, header: &Header, bytes: &[u8])
    ensures { Finds findings.old findings.new (odd_rest header.now bytes.now) }
{
    let end = FilePlaces::of(header).end;
    let is_longer = bytes.len() > end;
    if !is_longer {
        return;
    }
    let rest = &bytes[end..];
    let more = rest.len();
    findings.find_if_as(
        has_byte(rest),
        true,
        end,
        FindingKind::BytesAfterTable,
        format_args!("0{more:o} ({more}) bytes after the symbol table are not read"),
    );
}

/// Adds what is odd of the header, and bytes after the table.
fn find_header(findings: &mut Findings, source: &Source<'_>)
    ensures { Finds findings.old findings.new
        (odd_header source.now.sweep.now.header source.now.bytes.now) }
{
    let header = source.sweep.file().header();
    let (entry, unused) = (header.entry_point, header.unused);
    findings.find_if(
        entry != 0 && header.flag == 0,
        10,
        FindingKind::IgnoredEntry,
        format_args!("the entry point of an object, {entry:06o}, is ignored"),
    );
    findings.find_if(
        unused != 0,
        12,
        FindingKind::IgnoredWord,
        format_args!("the unused word, {unused:06o}, is ignored"),
    );
    find_rest(findings, header, source.bytes);
    let end = range_of(header, Segment::BssSeg).end;
    findings.find_if_as(
        u32::from(header.data_size) + u32::from(header.bss_size) > 65535,
        end > 65535,
        2,
        FindingKind::NoRoom,
        format_args!("text, data and bss end at {end:06o}, and have no room in memory"),
    );
}

/// Adds what is odd of a file, which the bytes begin with.
fn find_odd(findings: &mut Findings, source: &Source<'_>)
    ensures { Finds findings.old findings.new
        (odd source.now.commons source.now.bytes.now source.now.sweep.now) }
{
    find_header(findings, source);
    find_words(findings, source.sweep, Part::Text);
    find_words(findings, source.sweep, Part::Data);
    find_symbols(findings, source);
}

/// What is odd of a file, which these bytes begin with, with the commons of odd sizes or without them. An error: out of memory.
pub fn odd_of(
    alloc: Global,
    bytes: &[u8],
    sweep: &Sweep<'_>,
    commons: bool,
) -> Result<Vec<Finding>, AllocError>
    ensures { IfOk result (λ findings.
        each_found findings.items ≡ odd commons bytes.now sweep.now) }
{
    let mut findings = Findings::new(alloc);
    let source = Source {
        bytes,
        sweep,
        commons,
    };
    find_odd(&mut findings, &source);
    findings.finish()
}
