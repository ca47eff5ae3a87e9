//! What is damaged in a file.
ghost use Rattle.std.specs.Prelude.{◌≡◌, ◌^◌, ◌<◌, ◌++◌, length, IfOk, OnOk};
ghost use Rattle.aout_core.specs.WellFormed.{word_fault};
ghost use Rattle.checks.specs.Found.{each_found, Finds};
ghost use Rattle.checks.specs.Wrong.{odd_size, odd_sizes, wrong_bytes, fault_kind, is_damaged, bad_words, all_bad_words, more_bad_words};
ghost use Rattle.checks.specs.{Wrong.{wrong_in, wrong_words}, internal.BadWords.all_bad};

use crate::finding::{Finding, FindingKind, Findings};
use crate::other_files::header_of;
use crate::places::{FilePlaces, SymbolName, TextAddress};
use aout_core::{File, Header, Kind, ObjectFault, ReadFault, Reloc, Symbol};
use disassemblies::{NamedFile, line_start, line_starts, put_line_text};
use instructions::Decoder;
use std::alloc::{AllocError, Global};
use texts::Text;

/// How many bad relocation words are shown one by one.
const MOST: usize = 16;

fn find_odd_size(findings: &mut Findings, place: usize, part: &str, size: u16)
    ensures { Finds findings.old findings.new (odd_size place size) }
{
    findings.find_if(
        size % 2 != 0,
        place,
        FindingKind::OddSize,
        format_args!("odd size: {part} has 0{size:o} ({size}) bytes, which are no whole words"),
    );
}

/// Adds the sizes that are not whole.
fn find_sizes(findings: &mut Findings, header: &Header)
    ensures { Finds findings.old findings.new (odd_sizes header.now) }
{
    find_odd_size(findings, 2, "text", header.text_size);
    find_odd_size(findings, 4, "data", header.data_size);
    find_odd_size(findings, 6, "bss", header.bss_size);
    let size = header.symbol_size;
    findings.find_if(
        size % 12 != 0,
        8,
        FindingKind::OddSize,
        format_args!("odd size: the symbol table has 0{size:o} ({size}) bytes, and a symbol 12"),
    );
}

/// The part of a file in which a byte lies.
fn part_at(places: &FilePlaces, place: usize) -> &'static str {
    if place < places.data {
        "text"
    } else if place < places.relocation {
        "data"
    } else if place < places.symbols {
        "the relocation"
    } else {
        "the symbol table"
    }
}

/// Adds what is wrong with bytes that are not a file, for this reason.
fn find_wrong(findings: &mut Findings, bytes: &[u8], fault: ReadFault)
    ensures { Finds findings.old findings.new (wrong_bytes fault bytes.now) }
{
    let size = bytes.len();
    let Some(header) = header_of(bytes) else {
        return findings.find_if(
            true,
            size,
            FindingKind::ShortHeader,
            format_args!("short header: the file ends here, and a header has 16 bytes"),
        );
    };
    match fault {
        ReadFault::BadMagic => {
            let magic = header.magic;
            findings.find_if(
                true,
                0,
                FindingKind::BadMagic,
                format_args!(
                    "bad magic number: {magic:06o}, and not 000405, 000407, 000410 or 000411"
                ),
            );
        }
        ReadFault::OddSize => find_sizes(findings, &header),
        _ => {
            let places = FilePlaces::of(&header);
            let (part, end) = (part_at(&places, size), places.end);
            findings.find_if(
                true,
                size,
                FindingKind::Truncated,
                format_args!(
                    "truncated: the file ends here, in {part}; by its header it has 0{end:o} ({end}) bytes"
                ),
            );
        }
    }
}

/// What is wrong with bytes that are not a file, for this reason. An error: out of memory.
pub fn wrong_bytes(
    alloc: Global,
    bytes: &[u8],
    fault: ReadFault,
) -> Result<Vec<Finding>, AllocError>
    ensures { IfOk result (λ findings. each_found findings.items ≡ wrong_bytes fault bytes.now) }
{
    let mut findings = Findings::new(alloc);
    find_wrong(&mut findings, bytes, fault);
    findings.finish()
}

/// A relocation word that makes `ld` refuse an object, its place in the file, and the number of its word: of text first, and then of
/// data.
#[derive(Clone, Copy)]
struct BadWord {
    index: usize,
    place: usize,
    reloc: Reloc,
    kind: FindingKind,
}

/// What is wrong with a relocation word, if anything is.
fn bad_kind(symbols: &[Symbol], reloc: Reloc) -> Option<FindingKind>
    ensures { result ≡ fault_kind (word_fault symbols.now 0 reloc) }
{
    match reloc.kind() {
        None => Some(FindingKind::BadRelocation),
        Some(Kind::External) => match symbols.get(usize::from(reloc.number())) {
            Some(symbol) if symbol.is_undefined() => None,
            _ => Some(FindingKind::BadSymbolNumber),
        },
        Some(_) => None,
    }
}

/// Appends the bad ones of these words, of which the first has this number. That of word 0 has this place in the file.
fn put_bad(
    list: &mut Vec<BadWord>,
    file: &File,
    place: usize,
    first: usize,
    relocs: &[Reloc],
) -> Result<(), AllocError>
    requires near { place < 2 ^ 20 }
    requires few { first < 2 ^ 20 }
    requires short { length relocs.now < 2 ^ 20 }
    ensures { OnOk result (all_bad list.new.items
        ≡ all_bad list.old.items ++ bad_words file.now place first relocs.now) }
{
    let symbols = file.symbols();
    let mut index = first;
    for reloc in relocs {
        if let Some(kind) = bad_kind(symbols, *reloc) {
            list.push(BadWord {
                index,
                place: place + 2 * index,
                reloc: *reloc,
                kind,
            })?;
        }
        index += 1;
    }
    Ok(())
}

/// The bad relocation words of a file.
#[tactic(auto, using(crate::proofs::BadWordLemmas::bad_words_joined))]
fn bad_words_of(alloc: Global, file: &File) -> Result<Vec<BadWord>, AllocError>
    ensures { IfOk result (λ list. all_bad list.items ≡ all_bad_words file.now) }
{
    let mut list = Vec::new(alloc);
    let place = FilePlaces::of(file.header()).relocation;
    let text = file.text_reloc();
    put_bad(&mut list, file, place, 0, text)?;
    put_bad(&mut list, file, place, text.len(), file.data_reloc())?;
    Ok(list)
}

/// Appends what is wrong with a relocation word.
fn put_bad_word(text: &mut Text, symbols: &[Symbol], bad: BadWord) {
    let (index, reloc, number) = (bad.index, bad.reloc.0, bad.reloc.number());
    if bad.kind == FindingKind::BadRelocation {
        text.say(format_args!(
            "bad relocation at word {index}: {reloc:o} has none of the kinds 0, 2, 4, 6 and 10"
        ));
        return;
    }
    let count = symbols.len();
    text.say(format_args!(
        "bad symbol number at word {index}: {reloc:o} refers to symbol {number}"
    ));
    match symbols.get(usize::from(number)) {
        Some(symbol) => {
            let (name, bits) = (SymbolName(&symbol.name), symbol.type_bits);
            text.say(format_args!(
                " of {count}, {name} of type {bits:o}, and not an undefined external, 40"
            ));
        }
        None => text.say(format_args!(", and the table has {count}, counted from 0")),
    }
}

/// Appends the instruction that begins at a word, if it is one of text, as `; the instruction at 000002 (_f+2) is mov 0,r0`.
pub fn put_instruction(text: &mut Text, named: &NamedFile<'_>, place: usize) {
    if place < named.file().text_words().len() {
        let labelled = TextAddress {
            names: named.names(),
            address: (2 * place) as u16,
        };
        text.say(format_args!("; the instruction at {labelled} is "));
        put_line_text(text, Decoder::Unix, named, place);
    }
}

/// Adds bad relocation words of a file. An error: out of memory.
fn find_shown(findings: &mut Findings, file: &File, bad: &[BadWord]) -> Result<(), AllocError>
    ensures { OnOk result (Finds findings.old findings.new (all_bad bad.now)) }
{
    if bad.is_empty() {
        return Ok(());
    }
    let alloc = findings.allocator();
    let starts = line_starts(alloc, Decoder::Unix, file)?;
    let named = NamedFile::new(alloc, file)?;
    for word in bad {
        let mut text = findings.text();
        put_bad_word(&mut text, file.symbols(), *word);
        if let Some(false) = starts.get(word.index) {
            put_instruction(&mut text, &named, line_start(&starts, word.index));
        }
        findings.find_as(true, word.place, word.kind, text);
    }
    Ok(())
}

/// Adds that there are more bad relocation words than are shown, if there are, of so many.
fn find_more(findings: &mut Findings, header: &Header, count: usize)
    ensures { Finds findings.old findings.new (more_bad_words header.now count) }
{
    let more = count.saturating_sub(MOST);
    findings.find_if(
        count > MOST,
        FilePlaces::of(header).relocation,
        FindingKind::MoreBadWords,
        format_args!("and {more} more such relocation words"),
    );
}

/// The bad relocation words of a file, the first of them one by one. An error: out of memory.
pub fn wrong_words(alloc: Global, file: &File) -> Result<Vec<Finding>, AllocError>
    ensures { IfOk result (λ findings. each_found findings.items ≡ wrong_words file.now) }
{
    let mut findings = Findings::new(alloc);
    let bad = bad_words_of(alloc, file)?;
    let bad = bad.as_slice();
    let shown = &bad[..MOST.min(bad.len())];
    find_shown(&mut findings, file, shown)?;
    find_more(&mut findings, file.header(), bad.len());
    findings.finish()
}

/// Whether it is a word of a file that makes `ld` refuse it.
pub fn is_damaged(refused: Option<ObjectFault>) -> bool
    ensures { result ≡ is_damaged refused }
{
    matches!(
        refused,
        Some(ObjectFault::BadRelocation(_) | ObjectFault::BadSymbolNumber(_))
    )
}

/// The bad relocation words of a file that `ld` refuses for this reason, if it does. An error: out of memory.
pub fn wrong_in(
    alloc: Global,
    file: &File,
    refused: Option<ObjectFault>,
) -> Result<Vec<Finding>, AllocError>
    ensures { IfOk result (λ wrong. each_found wrong.items ≡ wrong_in refused file.now) }
{
    if is_damaged(refused) {
        return wrong_words(alloc, file);
    }
    Ok(Vec::new(alloc))
}
