//! What arguments give a program: letters of options, the values of some of them, and paths.
ghost use Rattle.std.specs.Prelude.{◌≡◌, Ok, map, option_map, string_bytes, IfOk, OnOk};
ghost use Rattle.host.specs.Arguments.{excluded_in, first_in, given_in, has_letter, letters_of, letters_read, next_letter, nothing_given, option_read, other_in, plain_read, value_of, with_path, with_value, word_read};
ghost use Rattle.host.specs.internal.Readings.{after};

use crate::arguments::letters_of;
use crate::reasons::Reason;
use std::alloc::{AllocError, Global};
use std::marker::Model;

/// What arguments give a program.
#[derive(Drop)]
pub struct Given {
    letters: Vec<u8>,
    values: Vec<(u8, String)>,
    paths: Vec<String>,
    /// The letter of an option whose value is the next argument.
    waiting: Option<u8>,
    /// Whether `--` was read.
    has_ended: bool,
}

impl Model for Given {
    ghost use Rattle.std.specs.Prelude.{map, string_bytes};
    ghost use Rattle.host.specs.Arguments as spec;

    ghost Value = { spec.Given };

    ghost view = { λ g. record {
      letters = g.letters.items;
      values = map (λ v. (v.0, string_bytes v.1)) g.values.items;
      paths = map string_bytes g.paths.items;
      waiting = g.waiting;
      has_ended = g.has_ended;
    } };
}

fn has_letter(letters: &[u8], letter: u8) -> bool
    ensures { result ≡ has_letter letters.now letter }
{
    letters.contains(&letter)
}

fn first_in(set: &[u8], letters: &[u8]) -> Option<u8>
    ensures { result ≡ first_in set.now letters.now }
{
    for letter in letters {
        if has_letter(set, *letter) {
            return Some(*letter);
        }
    }
    None
}

/// The first of some letters that is in a set, and is another one than this.
fn other_in(set: &[u8], first: u8, letters: &[u8]) -> Option<u8>
    ensures { result ≡ other_in set.now first letters.now }
{
    for letter in letters {
        if *letter != first && has_letter(set, *letter) {
            return Some(*letter);
        }
    }
    None
}

impl Given {
    /// Nothing yet.
    fn new(alloc: Global) -> Given
        ensures { result ≡ nothing_given }
    {
        Given {
            letters: Vec::new(alloc),
            values: Vec::new(alloc),
            paths: Vec::new(alloc),
            waiting: None,
            has_ended: false,
        }
    }

    /// The paths, in order.
    pub fn paths(&self) -> &[String]
        ensures { map string_bytes result.now ≡ self.now.paths }
    {
        &self.paths
    }

    /// Whether the option of this letter is given.
    pub fn has(&self, letter: u8) -> bool
        ensures { result ≡ has_letter self.now.letters letter }
    {
        has_letter(&self.letters, letter)
    }

    /// The value of the option of this letter, if it is given.
    pub fn value_of(&self, letter: u8) -> Option<&str>
        ensures { option_map (λ value. value.now) result ≡ value_of self.now letter }
    {
        for (other, value) in &self.values {
            if *other == letter {
                return Some(value.as_str());
            }
        }
        None
    }

    /// Why letters are refused of which only one may be given: two of them are.
    pub fn excluded_in(&self, set: &[u8]) -> Option<Reason>
        ensures { result ≡ excluded_in set.now self.now }
    {
        let first = first_in(set, &self.letters)?;
        let other = other_in(set, first, &self.letters)?;
        Some(Reason::Excluded(first, other))
    }

    fn add_path(&mut self, word: &str) -> Result<(), AllocError>
        ensures { OnOk result (self.new ≡ with_path self.old word.now) }
    {
        let alloc = *self.paths.allocator();
        let path = String::from_str(alloc, word)?;
        self.paths.push(path)?;
        Ok(())
    }

    /// Adds the value of the option that waits for one.
    fn add_value(&mut self, letter: u8, word: &str) -> Result<(), AllocError>
        ensures { OnOk result (self.new ≡ with_value self.old letter word.now) }
    {
        let alloc = *self.paths.allocator();
        let value = String::from_str(alloc, word)?;
        self.values.push((letter, value))?;
        self.waiting = None;
        Ok(())
    }

    /// Adds an argument that does not begin with a hyphen.
    fn add_plain(&mut self, word: &str) -> Result<(), AllocError>
        ensures { OnOk result (self.new ≡ plain_read self.old.waiting self.old word.now) }
    {
        match self.waiting {
            Some(letter) => self.add_value(letter, word),
            None => self.add_path(word),
        }
    }

    /// Adds the next letter of an argument.
    fn add_letter(
        &mut self,
        flags: &[u8],
        valued: &[u8],
        letter: u8,
    ) -> Result<Option<Reason>, AllocError>
        ensures { IfOk result (λ found.
            after found self.new ≡ next_letter flags.now valued.now self.old letter) }
    {
        if let Some(waiting) = self.waiting {
            return Ok(Some(Reason::NoValue(waiting)));
        }
        let takes_value = has_letter(valued, letter);
        if takes_value && has_letter(&self.letters, letter) {
            return Ok(Some(Reason::SecondValue(letter)));
        }
        if !takes_value && !has_letter(flags, letter) {
            return Ok(Some(Reason::NoOption(letter)));
        }
        self.letters.push(letter)?;
        if takes_value {
            self.waiting = Some(letter);
        }
        Ok(None)
    }

    /// Adds the letters of an argument.
    fn add_letters(
        &mut self,
        flags: &[u8],
        valued: &[u8],
        letters: &[u8],
    ) -> Result<Option<Reason>, AllocError>
        ensures { IfOk result (λ found.
            after found self.new ≡ letters_read flags.now valued.now self.old letters.now) }
    {
        for letter in letters {
            if let Some(reason) = self.add_letter(flags, valued, *letter)? {
                return Ok(Some(reason));
            }
        }
        Ok(None)
    }

    /// Adds what follows the hyphen of an argument: `--` ends the options, and there are no others of two hyphens.
    fn add_option(
        &mut self,
        flags: &[u8],
        valued: &[u8],
        letters: &[u8],
    ) -> Result<Option<Reason>, AllocError>
        ensures { IfOk result (λ found.
            after found self.new ≡ option_read flags.now valued.now self.old letters.now) }
    {
        match letters {
            [] => {
                self.add_path("-")?;
                Ok(None)
            }
            [b'-'] => {
                self.has_ended = true;
                Ok(None)
            }
            [b'-', ..] => Ok(Some(Reason::NoLongOption)),
            _ => self.add_letters(flags, valued, letters),
        }
    }

    /// Adds an argument.
    fn add_word(
        &mut self,
        flags: &[u8],
        valued: &[u8],
        word: &str,
    ) -> Result<Option<Reason>, AllocError>
        ensures { IfOk result (λ found.
            after found self.new ≡ word_read flags.now valued.now self.old word.now) }
    {
        if self.has_ended {
            self.add_path(word)?;
            return Ok(None);
        }
        match (letters_of(word), self.waiting) {
            (None, _) => {
                self.add_plain(word)?;
                Ok(None)
            }
            (Some(_), Some(letter)) => Ok(Some(Reason::NoValue(letter))),
            (Some(letters), None) => self.add_option(flags, valued, letters),
        }
    }
}

/// What arguments give a program whose options have these letters, without a value and with one; or why they are refused.
///
/// Errors: `AllocError` if memory runs out.
pub fn given_in(
    alloc: Global,
    flags: &[u8],
    valued: &[u8],
    words: &[String],
) -> Result<Result<Given, Reason>, AllocError>
    ensures { IfOk result (λ given.
        given ≡ given_in flags.now valued.now (map string_bytes words.now)) }
{
    let mut given = Given::new(alloc);
    for word in words {
        if let Some(reason) = given.add_word(flags, valued, word.as_str())? {
            return Ok(Err(reason));
        }
    }
    match given.waiting {
        Some(letter) => Ok(Err(Reason::NoValue(letter))),
        None => Ok(Ok(given)),
    }
}
