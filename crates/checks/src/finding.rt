//! What is found in a file. Only tested: what a finding says.
ghost use Rattle.std.specs.Prelude.{◌≡◌};

use crate::notes::Notes;
use aout_core::Segment;
use std::alloc::{AllocError, Global};
use std::fmt::Display;
use std::marker::Model;
use texts::Text;

/// What is wrong or odd, each with its number in `v7.h`: 1 to 7 are wrong, 8 to 20, 30, 31 and 35 odd, and
/// the others suspicious. v7-explain(1) lists them.
#[derive(Clone, Copy, Debug, PartialEq, Eq)]
pub enum FindingKind {
    /// The file ends in its header.
    ShortHeader = 1,
    /// A file begins with another magic number.
    BadMagic = 2,
    /// A size is not whole.
    OddSize = 3,
    /// The file ends before its header says.
    Truncated = 4,
    /// A relocation word has none of the kinds.
    BadRelocation = 5,
    /// A relocation word refers to no undefined external.
    BadSymbolNumber = 6,
    /// There are more bad relocation words than are shown.
    MoreBadWords = 7,
    /// The entry point of an object is ignored.
    IgnoredEntry = 8,
    /// The unused word of the header is not 0.
    IgnoredWord = 9,
    /// Bytes after the table are not read.
    BytesAfterTable = 10,
    /// Bits 15 to 4 of a relocation word count for an external alone.
    IgnoredRelocationBits = 11,
    /// A word refers to a segment, and to an address outside of it.
    OutsideReference = 12,
    /// A name is empty.
    EmptyName = 13,
    /// A name has bytes that do not print.
    UnprintableName = 14,
    /// Bytes after the NUL of a name are ignored.
    BytesAfterName = 15,
    /// An earlier external has the name, which is an external too.
    RepeatedName = 16,
    /// Bits of a type word above 77 are ignored.
    IgnoredTypeBits = 17,
    /// The format does not have a type.
    UnknownType = 18,
    /// A common has an odd size.
    OddCommon = 19,
    /// The value of a symbol is outside of its segment.
    OutsideValue = 20,
    /// The first word of an instruction is relocated.
    RelocatedFirstWord = 21,
    /// The pc bit of an operand word does not suit its mode.
    UnsuitablePcBit = 22,
    /// An instruction has more words than the text has after it.
    CutInstruction = 23,
    /// An instruction leads to a word that begins none.
    NoInstruction = 24,
    /// A branch leads out of the text.
    BranchOutside = 25,
    /// A branch leads to an operand word of an instruction.
    BranchWithin = 26,
    /// An operand refers to what its instruction cannot mean, as a call that leads to a common.
    UnsuitableReference = 27,
    /// A symbol of text, or a word of kind text, has an address at which no instruction begins.
    UnsuitableAddress = 28,
    /// An external is absolute and has an address of the text, and no symbol is of text.
    AbsoluteText = 29,
    /// Text, data and bss, or a common, have no room in memory.
    NoRoom = 30,
    /// No word refers to a name that is undefined.
    UnusedName = 31,
    /// A jump or a call goes to a register or to a number.
    UnsuitableJump = 32,
    /// An instruction has a word of memory at an odd address.
    OddOperand = 33,
    /// The text ends after an instruction that goes on.
    NoEnd = 34,
    /// A name is undefined, and a symbol that is defined has it but for capitals, or is a local of it.
    SimilarName = 35,
    /// A call has another link than the register by which the called function returns.
    UnsuitableLink = 36,
}

impl FindingKind {
    ghost use Rattle.checks.specs.Found.{kind_number};

    /// Its number in `v7.h`.
    pub fn number(self) -> u32
        ensures { result ≡ kind_number self }
    {
        self as u32
    }
}

/// What is found at a byte of a file.
#[derive(Debug, Drop)]
pub struct Finding {
    /// The byte of the file.
    pub place: usize,
    /// What is wrong or odd there.
    pub kind: FindingKind,
    /// Whether it is not in doubt, as what is odd of a word is if that may be data.
    pub is_sure: bool,
    /// The segment that a word refers to, if its address is outside of it.
    pub outside: Option<Segment>,
    /// The same in words, with its numbers.
    pub text: Vec<u8>,
}

/// Findings while they are collected. Once memory runs out they are cut, and `finish` returns the error.
#[derive(Drop)]
pub struct Findings {
    list: Vec<Finding>,
    refused: Option<AllocError>,
}

impl Model for Findings {
    ghost use Rattle.std.specs.Option.{is_some};
    ghost use Rattle.checks.specs.Found.{Collected, each_found};

    ghost Value = { Collected };

    ghost view = { λ f. record { found = each_found f.list.items; is_cut = is_some f.refused } };
}

impl Findings {
    ghost use Rattle.std.specs.Prelude.{◌≡◌, [], false, true, IfOk};
    ghost use Rattle.checks.specs.Found.{each_found, Finds, found_as, found_if};
    ghost use Rattle.checks.specs.declared.finding.FindingKind.TheVariants.{OutsideReference};

    /// None yet.
    pub fn new(alloc: Global) -> Findings
        ensures found { result.found ≡ [] }
        ensures whole { result.is_cut ≡ false }
    {
        Findings {
            list: Vec::new(alloc),
            refused: None,
        }
    }

    /// The allocator of their memory.
    pub fn allocator(&self) -> Global {
        *self.list.allocator()
    }

    /// An empty text.
    pub fn text(&self) -> Text {
        Text::new(self.allocator())
    }

    /// Adds a finding that is sure or in doubt.
    pub fn find_as(&mut self, is_sure: bool, place: usize, kind: FindingKind, text: Text)
        ensures { Finds self.old self.new (found_as is_sure true place kind) }
    {
        self.push(is_sure, place, kind, None, text);
    }

    fn push(
        &mut self,
        is_sure: bool,
        place: usize,
        kind: FindingKind,
        outside: Option<Segment>,
        text: Text,
    )
        ensures { Finds self.old self.new (found_as is_sure true place kind) }
    {
        let text = match text.finish() {
            Ok(text) => text,
            Err(error) => return self.cut(error),
        };
        if let Err(error) = self.list.push(Finding {
            place,
            kind,
            is_sure,
            outside,
            text,
        }) {
            self.cut(AllocError::from(error));
        }
    }

    /// A text, which ends with an `if` unless what it says is sure.
    fn text_as<D: Display + Drop>(&self, is_sure: bool, says: D) -> Text {
        let mut text = self.text();
        text.say(says);
        if !is_sure {
            text.put(": a mistake, if this is not meant");
        }
        text
    }

    /// Adds that a word refers to a segment, and to an address outside of it.
    pub(crate) fn find_outside<D: Display + Drop>(
        &mut self,
        is_sure: bool,
        place: usize,
        segment: Segment,
        says: D,
    )
        ensures { Finds self.old self.new (found_as is_sure true place OutsideReference) }
    {
        let text = self.text_as(is_sure, says);
        self.push(
            is_sure,
            place,
            FindingKind::OutsideReference,
            Some(segment),
            text,
        );
    }

    /// Adds a finding that is sure, with this text, if a condition holds.
    pub fn find_if<D: Display + Drop>(
        &mut self,
        holds: bool,
        place: usize,
        kind: FindingKind,
        says: D,
    )
        ensures { Finds self.old self.new (found_if holds place kind) }
    {
        self.find_if_as(true, holds, place, kind, says);
    }

    /// Adds a finding that is sure or in doubt, if a condition holds. In doubt, its text ends with an `if`.
    pub fn find_if_as<D: Display + Drop>(
        &mut self,
        is_sure: bool,
        holds: bool,
        place: usize,
        kind: FindingKind,
        says: D,
    )
        ensures { Finds self.old self.new (found_as is_sure holds place kind) }
    {
        if holds {
            let text = self.text_as(is_sure, says);
            self.find_as(is_sure, place, kind, text);
        }
    }

    /// Cuts the findings: memory ran out for something that one needs.
    pub fn cut(&mut self, refused: AllocError)
        ensures { self.new.is_cut ≡ true }
    {
        self.refused = Some(refused);
    }

    /// The findings. An error, out of memory, if they are cut.
    pub fn finish(self) -> Result<Vec<Finding>, AllocError>
        ensures { IfOk result (λ list.
            (self.is_cut ≡ false) × (each_found list.items ≡ self.found)) }
    {
        let Findings { list, refused } = self;
        match refused {
            Some(error) => Err(error),
            None => Ok(list),
        }
    }
}

/// Appends a finding in a line: its place and its text.
pub fn put_finding_text(text: &mut Text, finding: &Finding) {
    let place = finding.place;
    text.say(format_args!("byte 0{place:o} ({place}): "));
    text.put_bytes(&finding.text);
}

/// Adds findings as notes, each after this word.
pub fn put_findings(notes: &mut Notes, word: &str, findings: &[Finding]) {
    for finding in findings {
        let mut text = notes.begin();
        text.put(word);
        text.put(": ");
        put_finding_text(&mut text, finding);
        notes.add(text);
    }
}
