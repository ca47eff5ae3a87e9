//! The places that are reached.
ghost use Rattle.std.specs.Prelude.{◌≡◌, ◌<◌, ◌+◌, ◌++◌, ℕ, false, length, get_or, IfOk, OnOk};
ghost use Rattle.instructions.specs.{UnixLines.unix_length, declared.line.Line.TheVariants.Decoded};
ghost use Rattle.instructions.specs.declared.unix.UnixLine.TheVariants.{Machine};
ghost use Rattle.checks.specs.Reached.{leads_by, leads_to, visited, visited_all, begins, named, has_distance, is_shown_by};
ghost use Rattle.checks.specs.Reached.{shown, shown_from, entry, evident, spread, is_reached};
ghost use Rattle.checks.specs.internal.Marks.{AreMarks};

use crate::evidence::Evidence;
use crate::leads::{address_of, branch_of, calls_csv, jump, next_of, parent_of, reloc_at};
use aout_core::{File, Header, Segment, Symbol};
use disassemblies::Sweep;
use instructions::{Instruction, Line, Operand, UnixLine, is_relocated};
use std::alloc::{AllocError, Global};

pub(crate) fn is_marked(marks: &[bool], place: usize) -> bool
    ensures { result ≡ get_or marks.now place false }
{
    place < marks.len() && marks[place]
}

/// Notes the place of an address, if it is new.
fn visit(marks: &mut [bool], found: &mut Vec<usize>, address: Option<u16>) -> Result<(), AllocError>
    requires { AreMarks marks.old found.old.items }
    ensures found { OnOk result
        (found.new.items ≡ visited (length marks.old) found.old.items address) }
    ensures marks { OnOk result (AreMarks marks.new found.new.items) }
    ensures same { length marks.new ≡ length marks.old }
{
    let Some(address) = address else {
        return Ok(());
    };
    let place = usize::from(address / 2);
    if address % 2 == 0 && place < marks.len() && !marks[place] {
        found.push(place)?;
        marks[place] = true;
    }
    Ok(())
}

/// Notes the places of these addresses.
fn visit_all(
    marks: &mut [bool],
    found: &mut Vec<usize>,
    addresses: &[Option<u16>],
) -> Result<(), AllocError>
    requires { AreMarks marks.old found.old.items }
    ensures found { OnOk result
        (found.new.items ≡ visited_all (length marks.old) found.old.items addresses.now) }
    ensures marks { OnOk result (AreMarks marks.new found.new.items) }
    ensures same { length marks.new ≡ length marks.old }
{
    for address in addresses {
        visit(marks, found, *address)?;
    }
    Ok(())
}

/// Whether an evidence begins with a place that has the address of a symbol of text.
fn begins(evidence: Evidence, file: &File, place: usize) -> bool
    requires { place < 32768 }
    ensures { result ≡ begins evidence file.now place }
{
    let reloc = reloc_at(file, place);
    let is_still = reloc.is_some() && !is_relocated(reloc);
    match evidence {
        Evidence::Names => is_still,
        Evidence::Flow => is_still && calls_csv(file, place),
        Evidence::Promise => true,
    }
}

/// The address of a symbol of text, if an evidence begins there.
fn named(evidence: Evidence, file: &File, symbol: &Symbol) -> Option<u16>
    ensures { result ≡ named evidence file.now symbol.now }
{
    let begins = symbol.is_of(Segment::TextSeg)
        && begins(evidence, file, usize::from(symbol.value / 2));
    begins.then_some(symbol.value)
}

/// Whether an operand has a word at a place that counts from the pc, and is relocated so.
fn has_distance(file: &File, place: usize, operand: Option<Operand>) -> bool
    ensures { result ≡ has_distance file.now place operand }
{
    let Some(Operand::General(mode, register)) = operand else {
        return false;
    };
    match (reloc_at(file, place), mode.addressing(register)) {
        (Some(reloc), Some(addressing)) => {
            is_relocated(Some(reloc)) && reloc.is_pc() && addressing.counts_from_pc()
        }
        _ => false,
    }
}

/// Whether the line at a place has such a word.
fn is_shown(file: &File, place: usize, line: &UnixLine) -> bool
    requires { place < 32768 }
    ensures { result ≡ is_shown_by file.now place line.now }
{
    match line {
        UnixLine::Machine(Line::Decoded(instruction, _, _)) => {
            let later = place + 1 + instruction.words_before_second();
            has_distance(file, place + 1, instruction.first)
                || has_distance(file, later, instruction.second)
        }
        UnixLine::Machine(Line::Plain(_)) | UnixLine::Call(_) => false,
    }
}

/// The address of a place at which a line begins that has such a word.
fn shown(sweep: &Sweep<'_>, place: usize) -> Option<u16>
    requires { place < length sweep.now.text_words }
    ensures { result ≡ shown sweep.now place }
{
    let file = sweep.file();
    let address = address_of(file, place);
    match sweep.line_from(place) {
        Some(line) if is_shown(file, place, &line) => Some(address),
        _ => None,
    }
}

/// The entry point of a linked file.
fn entry(header: &Header) -> Option<u16>
    ensures { result ≡ entry header.now }
{
    (header.flag != 0).then_some(header.entry_point)
}

/// Adds the addresses of the lines that have such words.
fn put_shown(list: &mut Vec<Option<u16>>, sweep: &Sweep<'_>) -> Result<(), AllocError>
    ensures { OnOk result
        (list.new.items ≡ list.old.items ++ shown_from sweep.now 0 sweep.now.text_words) }
{
    let words = sweep.file().text_words();
    for (place, _) in words.iter().enumerate() {
        list.push(shown(sweep, place))?;
    }
    Ok(())
}

/// The addresses with which an evidence begins: the entry point, those of symbols, and those that need no name.
fn evident(
    alloc: Global,
    evidence: Evidence,
    sweep: &Sweep<'_>,
) -> Result<Vec<Option<u16>>, AllocError>
    ensures { IfOk result (λ list. list.items ≡ evident evidence sweep.now) }
{
    let file = sweep.file();
    let symbols = file.symbols();
    let mut list = Vec::new(alloc);
    list.push(entry(file.header()))?;
    for symbol in symbols {
        list.push(named(evidence, file, symbol))?;
    }
    match evidence {
        Evidence::Names => put_shown(&mut list, sweep)?,
        Evidence::Flow => {}
        Evidence::Promise => list.push(Some(0))?,
    }
    Ok(list)
}

/// The addresses to which an instruction at a place may lead.
fn decoded_leads(
    evidence: Evidence,
    file: &File,
    place: usize,
    instruction: Instruction,
    word: Option<u16>,
    other: Option<u16>,
) -> [Option<u16>; 5]
    requires { place + unix_length (Machine (Decoded instruction word other)) < 32768 }
    ensures { result ≡ leads_by evidence file.now place (Machine (Decoded instruction word other)) }
{
    let line = UnixLine::Machine(Line::Decoded(instruction, word, other));
    let address = (2 * place) as u16;
    let operation = instruction.row.operation;
    let later = place + 1 + instruction.words_before_second();
    [
        next_of(evidence, file, place, &line),
        branch_of(address, instruction.first),
        branch_of(address, instruction.second),
        jump(file, operation, place + 1, instruction.first, word),
        jump(file, operation, later, instruction.second, other),
    ]
}

/// Notes the places to which the line at a place may lead.
fn visit_leads(
    marks: &mut [bool],
    found: &mut Vec<usize>,
    evidence: Evidence,
    sweep: &Sweep<'_>,
    place: usize,
) -> Result<(), AllocError>
    requires inside { place < length sweep.now.text_words }
    requires marks { AreMarks marks.old found.old.items }
    ensures found { OnOk result (found.new.items
        ≡ visited_all (length marks.old) found.old.items (leads_to evidence sweep.now place)) }
    ensures marks { OnOk result (AreMarks marks.new found.new.items) }
    ensures same { length marks.new ≡ length marks.old }
{
    let file = sweep.file();
    let line = sweep.line_at(place);
    let end = file.text_words().len();
    let ends_inside = place + line.length() <= end;
    prove!(ends_inside);
    match line {
        UnixLine::Machine(Line::Decoded(instruction, word, other)) => visit_all(
            marks,
            found,
            &decoded_leads(evidence, file, place, instruction, word, other),
        ),
        UnixLine::Machine(Line::Plain(_)) => Ok(()),
        UnixLine::Call(row) => visit_all(
            marks,
            found,
            &[
                next_of(evidence, file, place, &line),
                parent_of(file, place, row.call),
            ],
        ),
    }
}

/// Notes the places to which the places lead that have been found, and so on.
fn spread(
    marks: &mut [bool],
    found: &mut Vec<usize>,
    evidence: Evidence,
    sweep: &Sweep<'_>,
) -> Result<(), AllocError>
    requires all { length marks.old ≡ length sweep.now.text_words }
    requires marks { AreMarks marks.old found.old.items }
    ensures found { OnOk result (found.new.items
        ≡ spread evidence sweep.now (length sweep.now.text_words) 0 found.old.items) }
    ensures marks { OnOk result (AreMarks marks.new found.new.items) }
{
    for next in 0..sweep.file().text_words().len() {
        if next >= found.len() {
            return Ok(());
        }
        let place = found[next];
        visit_leads(marks, found, evidence, sweep, place)?;
    }
    Ok(())
}

/// For each word of a file's text, whether an evidence shows that it is reached. An error: out of memory.
pub fn reached_places(
    alloc: Global,
    evidence: Evidence,
    sweep: &Sweep<'_>,
) -> Result<Vec<bool>, AllocError>
    ensures { IfOk result (λ marks. (place : ℕ)
        → get_or marks.items place false ≡ is_reached evidence sweep.now place) }
{
    let mut marks = vec![in alloc; false; sweep.file().text_words().len()]?;
    let mut found = Vec::new(alloc);
    let evident = evident(alloc, evidence, sweep)?;
    visit_all(&mut marks, &mut found, &evident)?;
    spread(&mut marks, &mut found, evidence, sweep)?;
    Ok(marks)
}
