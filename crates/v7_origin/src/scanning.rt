//! Words that a link leaves alone, compared with those of a program. How much work a search takes is counted before it is done.
use aout_core::{File, Object, Reloc};

/// How many words are compared in one run of the program, at most: some seconds.
pub(crate) const MOST_WORK: u64 = 250_000_000;

/// How many words that a link leaves alone are not those that are there, up to one more than a number, and how many words were compared.
pub(crate) fn differing(
    words: &[u16],
    relocs: &[Reloc],
    there: &[u16],
    most: usize,
) -> (usize, usize) {
    let mut count = 0usize;
    for i in 0..words.len() {
        match (relocs.get(i), there.get(i)) {
            (Some(reloc), Some(word)) if reloc.0 != 0 || *word == words[i] => {}
            _ => count = count.saturating_add(1),
        }
        if count > most {
            return (count, i + 1);
        }
    }
    (count, words.len())
}

/// At how many places words may be, by those that a link leaves alone. `left` is how many words may be compared.
fn places_of(words: &[u16], relocs: &[Reloc], there: &[u16], left: &mut u64) -> u64 {
    let mut places = 0u64;
    for first in 0..there.len().saturating_add(1) {
        if *left == 0 {
            break;
        }
        let rest = there.get(first..).unwrap_or(&[]);
        let (count, compared) = differing(words, relocs, rest, 0);
        *left = left.saturating_sub(1).saturating_sub(compared as u64);
        if count == 0 {
            places = places.saturating_add(1);
        }
    }
    places
}

/// How many words are compared to find the places of an object, at most.
pub(crate) fn work_of(program: &File, object: &Object, left: &mut u64) -> u64 {
    let object = object.file();
    let (text, data) = (object.text_words(), object.data_words());
    let texts = places_of(text, object.text_reloc(), program.text_words(), left);
    let datas = places_of(data, object.data_reloc(), program.data_words(), left);
    let slots = (object.symbols().len() as u64).saturating_add(3);
    let at_data = slots
        .saturating_add(data.len() as u64)
        .saturating_mul(if data.is_empty() { 1 } else { datas });
    slots
        .saturating_add(text.len() as u64)
        .saturating_add(program.data_words().len() as u64)
        .saturating_add(at_data)
        .saturating_mul(texts)
}
