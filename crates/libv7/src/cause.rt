//! Why a call has no answer.
ghost use Rattle.std.specs.Prelude.{◌≡◌};
ghost use Rattle.aout_core.specs.Refusals.{refused};
ghost use Rattle.libv7.specs.Causes.{cause_of_addition, cause_of_link, code_of, column_word, gnu_code, object_code, reason_number};
ghost use Rattle.libv7.specs.declared.cause.Cause.TheVariants.{Memory};

use aout_core::{ObjectFault, ReadFault, Refused};
use link_out::LinkFault;
use link_session::AddFault;
use listings::{Fault, Reason};
use std::alloc::AllocError;

/// A part of an object. (a.out(5))
#[derive(Clone, Copy, Debug, PartialEq, Eq)]
pub enum LongPart {
    /// 1: the words of the text.
    Text = 1,
    /// 2: the words of the data.
    Data = 2,
    /// 3: bss.
    Bss = 3,
    /// 4: the symbols.
    Symbols = 4,
}

/// Why a call has no answer. If memory runs out it is `Memory`, whatever was being done.
#[derive(Clone, Copy, Debug, PartialEq, Eq)]
pub enum Cause {
    /// 1: a bit is not an option.
    NoOption,
    /// 2: options exclude each other.
    Excluded,
    /// 3: the name of the entry point has more than 8 bytes.
    LongName,
    /// 4: the forced names are not 8 bytes each.
    CutNames,
    /// 5: more than 64 different names are forced.
    ManyNames,
    /// 6: this part of an object is longer than a header can say.
    TooLong(LongPart),
    /// 7: a request or a result has a size that is too small for what is wanted.
    ShortStruct,
    /// 8: no session is begun.
    NoSession,
    /// 9: a bit is not of what can be wanted.
    NoWant,
    /// 10: a session is begun already.
    SessionOpen,
    /// 11 to 14: the bytes do not begin with an a.out file.
    BadFile(ReadFault),
    /// 21 to 24: the file is not an object.
    BadObject(ObjectFault),
    /// 31 to 34: the object would pass a limit, with those before it.
    NotAdded(AddFault),
    /// 35: a session keeps no object.
    NothingKept,
    /// 36: a session does not keep what is wanted: the objects of what is reported, or those of a map.
    NotKept,
    /// 41 to 43: the objects can't be linked.
    NotLinked(LinkFault),
    /// 61 to 80: a listing has this mistake.
    BadListing(Fault),
    /// 11 to 14, 21 to 24, 42 and 81 to 89: an object in GNU's form is refused.
    NotConverted(gnu_objects::Refusal),
    /// 50: memory ran out.
    Memory(Refused),
}

/// Why a call has no answer, and where.
#[derive(Clone, Copy, Debug, PartialEq, Eq)]
pub struct Refusal {
    /// Why there is no answer.
    pub cause: Cause,
    /// The number of the object that is not taken, or of the forced name, from 0. For a mistake in a listing it is the line,
    /// from 1, and for an object in GNU's form the byte, from 0. For other causes it is 0.
    pub place: usize,
}

impl From<AddFault> for Cause {
    ghost from_gives = { λ fault cause. cause ≡ cause_of_addition fault };

    fn from(fault: AddFault) -> Cause {
        match fault {
            AddFault::Memory(refused) => Cause::Memory(refused),
            AddFault::TextFull | AddFault::DataFull | AddFault::BssFull | AddFault::NamesFull => {
                Cause::NotAdded(fault)
            }
        }
    }
}

impl From<LinkFault> for Cause {
    ghost from_gives = { λ fault cause. cause ≡ cause_of_link fault };

    fn from(fault: LinkFault) -> Cause {
        match fault {
            LinkFault::Memory(refused) => Cause::Memory(refused),
            LinkFault::DoesNotFit | LinkFault::TooManySymbols | LinkFault::SymbolNumber => {
                Cause::NotLinked(fault)
            }
        }
    }
}

impl From<AllocError> for Cause {
    ghost from_gives = { λ _ cause. cause ≡ Memory refused };

    fn from(error: AllocError) -> Cause {
        Cause::Memory(Refused::from(error))
    }
}

impl From<Refused> for Cause {
    ghost from_gives = { λ _ cause. cause ≡ Memory refused };

    fn from(refused: Refused) -> Cause {
        Cause::Memory(refused)
    }
}

impl From<Cause> for Refusal {
    ghost from_gives = { λ cause refusal. refusal ≡ record { cause = cause; place = 0 } };

    fn from(cause: Cause) -> Refusal {
        Refusal { cause, place: 0 }
    }
}

impl From<AllocError> for Refusal {
    ghost from_gives = { λ _ refusal. refusal ≡ record { cause = Memory refused; place = 0 } };

    fn from(error: AllocError) -> Refusal {
        Refusal::from(Cause::from(error))
    }
}

impl From<Refused> for Refusal {
    ghost from_gives = { λ _ refusal. refusal ≡ record { cause = Memory refused; place = 0 } };

    fn from(refused: Refused) -> Refusal {
        Refusal::from(Cause::Memory(refused))
    }
}

/// The number of a fault, and the index of the word that has it.
fn object_code(fault: ObjectFault) -> (u32, u32)
    ensures { result ≡ object_code fault }
{
    match fault {
        ObjectFault::NotAnObject => (21, 0),
        ObjectFault::NoRelocation => (22, 0),
        ObjectFault::BadRelocation(index) => (23, u32::from(index)),
        ObjectFault::BadSymbolNumber(index) => (24, u32::from(index)),
    }
}

fn reason_number(reason: Reason) -> u32
    ensures { result ≡ reason_number reason }
{
    match reason {
        Reason::Missing => 61,
        Reason::NotOctal => 62,
        Reason::TooLarge => 63,
        Reason::BadName => 64,
        Reason::WrongAddress(_) => 65,
        Reason::WrongNumber(_) => 66,
        Reason::TooManyWords => 67,
        Reason::TooManySymbols => 68,
        Reason::NoSection => 69,
        Reason::UnknownWord => 70,
        Reason::OutOfOrder => 71,
        Reason::TooLate => 72,
        Reason::AfterTable => 73,
        Reason::NoMagic => 74,
        Reason::OddSize => 75,
        Reason::LongName => 76,
        Reason::ExtraNumber => 77,
        Reason::StrayByte => 78,
        Reason::AfterEnd => 79,
        Reason::NoEnd => 80,
    }
}

/// The number of a refusal, and the number in it, of two the first.
fn gnu_code(refusal: gnu_objects::Refusal) -> (u32, u32)
    ensures { result ≡ gnu_code refusal }
{
    let (number, word) = match refusal {
        gnu_objects::Refusal::ShortHeader => (11, 0),
        gnu_objects::Refusal::BadMagic(magic) => (12, magic),
        gnu_objects::Refusal::OddSize(size) => (13, size as u16 + 1),
        gnu_objects::Refusal::Truncated => (14, 0),
        gnu_objects::Refusal::BadWord(fault) => return object_code(fault),
        gnu_objects::Refusal::TooManySymbols(count) => (42, count),
        // the cause is `Cause::Memory` then
        gnu_objects::Refusal::Memory(_) => (0, 0),
        gnu_objects::Refusal::BadStrings => (81, 0),
        gnu_objects::Refusal::Overlay(number) => (82, number),
        gnu_objects::Refusal::BadPlace(number) => (83, number),
        gnu_objects::Refusal::Stab(number) => (84, number),
        gnu_objects::Refusal::Description(number) => (85, number),
        gnu_objects::Refusal::Linked(entry) => (86, entry),
        gnu_objects::Refusal::AlikeNames(number, _) => (87, number),
        gnu_objects::Refusal::StabWord(number) => (88, number),
        gnu_objects::Refusal::LocalWord(number, _) => (89, number),
    };
    (number, u32::from(word))
}

/// The column of a mistake, or the last number that there is.
fn column_word(column: usize) -> u32
    ensures { result ≡ column_word column }
{
    if column < 4_294_967_296 {
        column as u32
    } else {
        4_294_967_295
    }
}

impl Cause {
    /// The number by which other languages know the cause, and a number in it: the index of the word that is at fault, text before data,
    /// from 0, or the number of the part that is too long. For a mistake in a listing it is the column, from 1, and columns from 2^32 - 1 on
    /// have that number. For an object in GNU's form it is the number in the refusal, and of two the first. Other causes have 0.
    pub(crate) fn code(&self) -> (u32, u32)
        ensures { result ≡ code_of self.now }
    {
        match *self {
            Cause::NoOption => (1, 0),
            Cause::Excluded => (2, 0),
            Cause::LongName => (3, 0),
            Cause::CutNames => (4, 0),
            Cause::ManyNames => (5, 0),
            Cause::TooLong(part) => (6, part as u32),
            Cause::ShortStruct => (7, 0),
            Cause::NoSession => (8, 0),
            Cause::NoWant => (9, 0),
            Cause::SessionOpen => (10, 0),
            Cause::BadFile(ReadFault::ShortHeader) => (11, 0),
            Cause::BadFile(ReadFault::BadMagic) => (12, 0),
            Cause::BadFile(ReadFault::OddSize) => (13, 0),
            Cause::BadFile(ReadFault::Truncated) => (14, 0),
            Cause::BadObject(fault) => object_code(fault),
            Cause::NotAdded(AddFault::TextFull) => (31, 0),
            Cause::NotAdded(AddFault::DataFull) => (32, 0),
            Cause::NotAdded(AddFault::BssFull) => (33, 0),
            Cause::NotAdded(AddFault::NamesFull) => (34, 0),
            Cause::NothingKept => (35, 0),
            Cause::NotKept => (36, 0),
            Cause::NotLinked(LinkFault::DoesNotFit) => (41, 0),
            Cause::NotLinked(LinkFault::TooManySymbols) => (42, 0),
            Cause::NotLinked(LinkFault::SymbolNumber) => (43, 0),
            Cause::BadListing(fault) => (reason_number(fault.reason), column_word(fault.column)),
            Cause::NotConverted(refusal) => gnu_code(refusal),
            Cause::Memory(_) => (50, 0),
            // no device is read, and what memory is missing for is `Memory`
            Cause::BadFile(ReadFault::Memory(_) | ReadFault::Device(_))
            | Cause::NotAdded(AddFault::Memory(_))
            | Cause::NotLinked(LinkFault::Memory(_)) => (0, 0),
        }
    }
}
