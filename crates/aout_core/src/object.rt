//! A file that can be linked.
ghost use Rattle.std.specs.Prelude.{◌≡◌, ◌+◌, ◌≤◌, ◌^◌, ◌↔◌, length, slice_get, Some, IfOk, IfErr, IsOk};
ghost use Rattle.aout_core.specs.WellFormed.{first_bad_word, first_object_fault, is_wanted, word_fault, IsWellFormed};

use crate::file::File;
use crate::reloc::{Kind, Reloc};
use crate::symbol::Symbol;
use std::marker::Model;
use thiserror::Error;

/// A well-formed file: magic 0407, with relocation, and each relocation word has a kind and, if it is that of an
/// external, the number of a symbol that is external and of type 0. Contracts see it as the file. (a.out(5); that
/// such a file alone is an object: own choice)
#[derive(Debug, Drop)]
pub struct Object {
    checked: File,
}

impl Model for Object {
    ghost use Rattle.aout_core.specs.Contents.{Contents};

    ghost Value = { Contents };

    ghost use Rattle.aout_core.specs.WellFormed.{IsWellFormed};

    ghost view = { λ a. a.checked };

    ghost invariant = { λ a. IsWellFormed a.checked };
}

/// Why a file is not an object. An index counts the words of text and then of data, from 0.
#[derive(Clone, Copy, Debug, PartialEq, Eq, Error)]
#[error("{}", self.words())]
pub enum ObjectFault {
    /// 1: the magic is not 0407.
    NotAnObject,
    /// 2: the flag says that relocation was stripped.
    NoRelocation,
    /// 3: the relocation word at this index has kind 012, 014 or 016.
    #[error("{}{}", self.words(), .0)]
    BadRelocation(u16),
    /// 4: the relocation word at this index has kind 010 and a number that is not that of an external symbol of type 0.
    #[error("{}{}", self.words(), .0)]
    BadSymbolNumber(u16),
}

impl ObjectFault {
    ghost use Rattle.std.specs.Prelude.{◌≡◌};
    ghost use Rattle.aout_core.specs.FaultTexts.{bad_word, object_words};

    /// What is said of the file, before the number of the bad word if there is one.
    pub fn words(self) -> &'static str
        ensures { result.now ≡ object_words self }
    {
        match self {
            ObjectFault::NotAnObject => "not an object",
            ObjectFault::NoRelocation => "no relocation",
            ObjectFault::BadRelocation(_) => "bad relocation at word ",
            ObjectFault::BadSymbolNumber(_) => "bad symbol number at word ",
        }
    }

    /// The bad word, if it is one.
    pub fn bad_word(self) -> Option<u16>
        ensures { result ≡ bad_word self }
    {
        match self {
            ObjectFault::BadRelocation(n) | ObjectFault::BadSymbolNumber(n) => Some(n),
            ObjectFault::NotAnObject | ObjectFault::NoRelocation => None,
        }
    }
}

/// Whether a relocation word may refer to the symbol of this number: it is there, external and of type 0.
fn is_wanted(symbols: &[Symbol], number: usize) -> bool
    ensures { result ≡ is_wanted (slice_get symbols.now number) }
{
    match symbols.get(number) {
        Some(symbol) => symbol.is_undefined(),
        None => false,
    }
}

/// What is wrong with the relocation word at an index, if anything is. Most words are absolute or refer to a segment, and
/// need no symbol: their bit 3 is 0. Where it is 1, bits 2 and 1 are 0 too.
fn word_fault(symbols: &[Symbol], index: u16, reloc: Reloc) -> Option<ObjectFault>
    ensures { result ≡ word_fault symbols.now index reloc }
{
    if reloc.0 / 0o10 % 2 == 0 {
        return None;
    }
    if reloc.0 / 2 % 4 != 0 {
        return Some(ObjectFault::BadRelocation(index));
    }
    if !is_wanted(symbols, reloc.number() as usize) {
        return Some(ObjectFault::BadSymbolNumber(index));
    }
    None
}

/// The first bad word of these, the first of which has index `start`.
fn first_bad_word(symbols: &[Symbol], start: u16, relocs: &[Reloc]) -> Option<ObjectFault>
    requires { start + length relocs.now ≤ 2 ^ 16 }
    ensures { result ≡ first_bad_word symbols.now start relocs.now }
{
    for (n, reloc) in relocs.iter().enumerate() {
        let fault = word_fault(symbols, start + n as u16, *reloc);
        if fault.is_some() {
            return fault;
        }
    }
    None
}

impl Object {
    /// The file as an object. (a.out(5); the refusals: own choice)
    ///
    /// Errors, the first that applies, and the file is handed back: `NotAnObject`, 1, if the magic is not 0407, or
    /// `NoRelocation`, 2, if the flag is not 0. Then, for the first bad word, text before data: `BadRelocation`, 3,
    /// if its kind is 012, 014 or 016, or `BadSymbolNumber`, 4, if its kind is 010 and its number not that of
    /// an external symbol of type 0.
    pub fn from_file(file: File) -> Result<Object, (File, ObjectFault)>
        ensures object { IfOk result (λ object. object ≡ file) }
        ensures well { IsOk result ↔ IsWellFormed file }
        ensures fault { IfErr result (λ refused. first_object_fault file ≡ Some refused.1) }
        ensures handed_back { IfErr result (λ refused. refused.0 ≡ file) }
    {
        match object_fault(&file) {
            Some(fault) => Err((file, fault)),
            None => Ok(Object { checked: file }),
        }
    }

    /// The file. (a.out(5))
    pub fn file(&self) -> &File
        ensures value { result.now ≡ self.now }
        ensures well { IsWellFormed self.now }
    {
        &self.checked
    }

    /// The file back. (a.out(5))
    pub fn into_file(self) -> File
        ensures value { result ≡ self }
        ensures well { IsWellFormed result }
    {
        let Object { checked } = self;
        checked
    }
}

/// Why the file is not an object, if it is not: the error of `Object::from_file`. (a.out(5); the refusals: own choice)
pub fn object_fault(file: &File) -> Option<ObjectFault>
    ensures { result ≡ first_object_fault file.now }
{
    let header = file.header();
    if header.magic != 0o407 {
        return Some(ObjectFault::NotAnObject);
    }
    if header.flag != 0 {
        return Some(ObjectFault::NoRelocation);
    }
    let text = file.text_reloc();
    match first_bad_word(file.symbols(), 0, text) {
        Some(fault) => Some(fault),
        None => first_bad_word(file.symbols(), text.len() as u16, file.data_reloc()),
    }
}
