//! Whether an object is in a program, at a place of its text and a place of its data.
ghost use Rattle.std.specs.Prelude.{◌≡◌, ◌↔◌, ℕ, ◌+◌, ◌*◌, ◌<◌, ◌≤◌, ◌^◌, IfOk, IsTrue, Some, false, length, map, slice_get};
ghost use Rattle.aout_core.specs.{Addresses.data_start_in, Words.minus};
ghost use Rattle.origins.specs.{Fits.FitsSomewhere, Telling.{HasSlots, IsTextAt, IsDataAt, Tells}};
ghost use Rattle.origins.specs.internal.Candidates.{first_number, IsNowhere, AreCandidates};

use crate::telling::{tell, tell_words};
use aout_core::{File, Name, Reloc, Symbol};
use std::alloc::{AllocError, Global};

/// The number of the first symbol of a name; how many symbols there are if none has it.
fn first_number(symbols: &[Symbol], name: &Name) -> usize
    ensures value { result ≡ first_number symbols.now name.now }
    ensures inside { result ≤ length symbols.now }
{
    for (i, symbol) in symbols.iter().enumerate() {
        if symbol.name == *name {
            return i;
        }
    }
    symbols.len()
}

/// For each symbol, the number of the first symbol of its name.
pub(crate) fn first_numbers(alloc: Global, symbols: &[Symbol]) -> Result<Vec<u16>, AllocError>
    requires { length symbols.now < 2 ^ 16 }
    ensures { IfOk result (λ v. v.items ≡ map (λ s. first_number symbols.now s.name) symbols.now) }
{
    let mut firsts = Vec::new(alloc);
    for symbol in symbols {
        firsts.push(first_number(symbols, &symbol.name) as u16)?;
    }
    Ok(firsts)
}

/// Whether the object's text may be at an even address of the program's, by the table; what its words show is entered.
pub(crate) fn tell_text(
    table: &mut [Option<u16>],
    firsts: &[u16],
    program: &File,
    object: &File,
    text: u16,
) -> bool
    requires slots { HasSlots firsts.now table.old }
    requires relocs { length object.now.text_reloc ≡ length object.now.text_words }
    ensures answer { Tells table.old (IsTextAt program.now object.now firsts.now text) result table.new }
{
    if !tell(table, Some(0), text) {
        return false;
    }
    let (words, relocs) = (object.text_words(), object.text_reloc());
    tell_words(
        table,
        firsts,
        words,
        relocs,
        text,
        text as usize / 2,
        program.text_words(),
    )
}

/// Whether the object's data may be at an even byte of the program's, by the table; what its words show is entered.
pub(crate) fn tell_data(
    table: &mut [Option<u16>],
    firsts: &[u16],
    program: &File,
    object: &File,
    place: usize,
) -> bool
    requires slots { HasSlots firsts.now table.old }
    requires relocs { length object.now.data_reloc ≡ length object.now.data_words }
    requires short { place < 2 ^ 16 }
    ensures answer { Tells table.old (IsDataAt program.now object.now firsts.now place) result table.new }
{
    let address = ((program.header().data_start() + place) % 65536) as u16;
    let own = address.wrapping_sub(object.header().text_size);
    if !tell(table, Some(1), own) {
        return false;
    }
    let (words, relocs) = (object.data_words(), object.data_reloc());
    tell_words(
        table,
        firsts,
        words,
        relocs,
        own,
        place / 2,
        program.data_words(),
    )
}

/// Empties all slots.
pub(crate) fn forget(table: &mut [Option<u16>])
    ensures { (n : ℕ) (v : ℕ) → slice_get table.new n ≡ Some (Some v) → ⊥ }
{
    for slot in table.iter_mut() {
        *slot = None;
    }
}

/// Whether the object's data may be at an even byte of the program's, by the table; what its words show is entered in `copy`.
fn may_have_data(
    table: &[Option<u16>],
    copy: &mut [Option<u16>],
    firsts: &[u16],
    program: &File,
    object: &File,
    place: usize,
) -> bool
    requires same { length copy.old ≡ length table.now }
    requires slots { HasSlots firsts.now table.now }
    requires relocs { length object.now.data_reloc ≡ length object.now.data_words }
    requires short { place < 2 ^ 16 }
    ensures { Tells table.now (IsDataAt program.now object.now firsts.now place) result copy.new }
{
    copy.copy_from_slice(table);
    tell_data(copy, firsts, program, object, place)
}

/// Whether the words that a link leaves alone are there, from number `first` on. If not, the object does not fit there.
fn may_be_there(words: &[u16], relocs: &[Reloc], first: usize, there: &[u16]) -> bool
    requires relocs { length relocs.now ≡ length words.now }
    requires short { length words.now < 2 ^ 16 }
    requires near { first < 2 ^ 16 }
    ensures { result ≡ false → IsNowhere words.now relocs.now first there.now }
{
    for i in 0..words.len() {
        let Some(f) = there.get(first + i) else {
            return false;
        };
        if relocs[i].0 == 0 && *f != words[i] {
            return false;
        }
    }
    true
}

/// For each even byte of the program's data, whether the object's may be there by the words that a link leaves alone.
pub(crate) fn data_candidates(
    alloc: Global,
    program: &File,
    object: &File,
) -> Result<Vec<bool>, AllocError>
    requires { length object.now.data_reloc ≡ length object.now.data_words }
    ensures { IfOk result (λ v. AreCandidates program.now object.now v.items) }
{
    let (words, relocs, there) = (
        object.data_words(),
        object.data_reloc(),
        program.data_words(),
    );
    let mut candidates = Vec::new(alloc);
    for k in 0..there.len() + 1 {
        candidates.push(may_be_there(words, relocs, k, there))?;
    }
    Ok(candidates)
}

/// Whether the object fits at an address of the program's text, with its data at some even byte of the program's.
pub(crate) fn fits_somewhere(
    table: &mut [Option<u16>],
    copy: &mut [Option<u16>],
    firsts: &[u16],
    candidates: &[bool],
    program: &File,
    object: &File,
    text: u16,
) -> bool
    requires same { length copy.old ≡ length table.old }
    requires slots { HasSlots firsts.now table.old }
    requires numbers { firsts.now ≡ map (λ s. first_number object.now.symbols s.name) object.now.symbols }
    requires text_relocs { length object.now.text_reloc ≡ length object.now.text_words }
    requires data_relocs { length object.now.data_reloc ≡ length object.now.data_words }
    requires candidates { AreCandidates program.now object.now candidates.now }
    ensures { IsTrue result ↔ FitsSomewhere program.now object.now text }
{
    let (words, relocs, there) = (
        object.text_words(),
        object.text_reloc(),
        program.text_words(),
    );
    if !may_be_there(words, relocs, text as usize / 2, there) {
        return false;
    }
    forget(table);
    if !tell_text(table, firsts, program, object, text) {
        return false;
    }
    for k in 0..program.data_words().len() + 1 {
        if !candidates[k] {
            continue;
        }
        if may_have_data(table, copy, firsts, program, object, 2 * k) {
            return true;
        }
    }
    false
}
