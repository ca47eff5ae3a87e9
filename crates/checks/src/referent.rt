//! What the words of operands refer to.
ghost use Rattle.std.specs.{Prelude.{◌≡◌, ◌<◌, ◌≤◌, option_map}, List.list_any};
ghost use Rattle.aout_core.specs.WellFormed.{kind_of};
ghost use Rattle.checks.specs.{Segments.bss_to, Found.Finds};
ghost use Rattle.checks.specs.Referents.{referent_of, referred, access_by, goes, is_after_text, is_storage, is_stored_at, common_size, wrong_place};
ghost use Rattle.checks.specs.Referents.{wrong_external, mismatch_of, is_certain, suspicious_reference, suspicious_references};

use crate::finding::{FindingKind, Findings};
use crate::leads::{is_promised, reloc_at};
use crate::suspect::{Suspect, doubt_text, word_place};
use aout_core::{File, Header, Kind, Reloc, Segment, Symbol};
use instructions::{Addressing, Line, Operand, UnixLine, is_relocated};
use std::fmt::{self, Display, Formatter, Write};

/// What the word of an operand refers to. (a.out(5))
#[derive(Clone, Copy)]
pub(crate) enum Referent {
    /// It is not known.
    Nothing,
    /// A number.
    Number(u16),
    /// A place at this address, at the same distance wherever the text is: the word is not relocated.
    Near(u16),
    /// An address that does not move.
    Fixed(u16),
    InText(u16),
    /// In data or bss.
    InData(u16),
    /// The external of this number, and bytes beyond it.
    External(u16, u16),
}

/// What an instruction does with what a word refers to.
#[derive(Clone, Copy)]
pub(crate) enum Access {
    /// It goes there.
    Goes,
    /// It reads or writes memory there.
    Touches,
    Neither,
}

/// What is wrong with what a word refers to.
#[derive(Clone, Copy)]
pub(crate) enum Mismatch {
    /// Not relocated, though this is the address of a symbol of data or bss.
    Unmarked(u16),
    /// Not relocated, though this address is after the text.
    Unrelocated(u16),
    /// Of kind absolute, though this address is in data or bss.
    Absolute(u16),
    /// A call leads so many bytes beyond an external.
    Beyond(u16),
    /// A call leads to a common of so many bytes.
    CommonCalled(u16),
    /// So many bytes after the beginning of a common, and beyond it.
    Outgrown(u16),
    /// A call leads to an odd address.
    OddPlace(u16),
    /// A call leads to an address in data or bss.
    DataCalled(u16),
    /// An instruction reads or writes memory at an address in text.
    TextTouched(u16),
}

/// What a number refers to, by the kind of its relocation word.
fn referent_of(reloc: Reloc, number: u16) -> Referent
    ensures { result ≡ referent_of reloc number (kind_of reloc) }
{
    match reloc.kind() {
        Some(Kind::Absolute) => Referent::Fixed(number),
        Some(Kind::TextSeg) => Referent::InText(number),
        Some(Kind::DataSeg | Kind::BssSeg) => Referent::InData(number),
        Some(Kind::External) => Referent::External(reloc.number(), number),
        None => Referent::Nothing,
    }
}

/// What a word refers to that counts from the pc, or does not; `next` is the address after it.
fn referred(counts: bool, reloc: Reloc, next: u32, word: u16) -> Referent
    requires { next < 0o400000 }
    ensures { result ≡ referred counts reloc next word }
{
    if counts {
        let number = ((u32::from(word) + next) % 0o200000) as u16;
        if !is_relocated(Some(reloc)) {
            Referent::Near(number)
        } else if reloc.is_pc() {
            referent_of(reloc, number)
        } else {
            Referent::Nothing
        }
    } else if !is_relocated(Some(reloc)) {
        Referent::Number(word)
    } else if reloc.is_pc() {
        Referent::Nothing
    } else {
        referent_of(reloc, word)
    }
}

/// What an instruction, which jumps or calls or does not, does with what its operand word refers to.
fn access_by(jumps: bool, addressing: Addressing) -> Access
    ensures { result ≡ access_by jumps addressing }
{
    match addressing {
        Addressing::Relative | Addressing::Absolute if jumps => Access::Goes,
        Addressing::Relative | Addressing::Absolute | Addressing::RelativeDeferred => {
            Access::Touches
        }
        Addressing::Immediate | Addressing::Indexed => Access::Neither,
    }
}

/// Whether an instruction goes there.
fn goes(access: Access) -> bool
    ensures { result ≡ goes access }
{
    matches!(access, Access::Goes)
}

/// The address at which bss ends.
pub(crate) fn bss_to(header: &Header) -> usize
    ensures { result ≡ bss_to header.now }
{
    header.data_start() + usize::from(header.data_size) + usize::from(header.bss_size)
}

fn is_after_text(file: &File, access: Access, address: u16) -> bool
    ensures { result ≡ is_after_text file.now access address }
{
    let end = 2 * file.text_words().len();
    let address = usize::from(address);
    end < address || (!goes(access) && end == address && address < bss_to(file.header()))
}

/// Whether an address is one of data or bss.
fn is_storage(header: &Header, address: u16) -> bool
    ensures { result ≡ is_storage header.now address }
{
    let address = usize::from(address);
    header.data_start() <= address && address < bss_to(header)
}

/// Whether some symbol of data or bss has an address in a file.
fn has_stored_at(file: &File, address: u16) -> bool
    ensures { result ≡ list_any (is_stored_at address) file.now.symbols }
{
    file.symbols().iter().any(|symbol| {
        (symbol.is_of(Segment::DataSeg) || symbol.is_of(Segment::BssSeg)) && symbol.value == address
    })
}

/// The bytes of an undefined external.
fn common_size(symbol: Option<&Symbol>) -> u16
    ensures { result ≡ common_size (option_map (λ s. s.now) symbol.entry) }
{
    match symbol {
        Some(symbol) if symbol.is_undefined() => symbol.value,
        _ => 0,
    }
}

/// What is wrong with a word so many bytes beyond an external of so many bytes.
fn wrong_external(access: Access, beyond: u16, size: u16) -> Option<Mismatch>
    ensures { result ≡ wrong_external access beyond size }
{
    match access {
        Access::Goes if size != 0 => Some(Mismatch::CommonCalled(size)),
        Access::Goes if beyond != 0 => Some(Mismatch::Beyond(beyond)),
        Access::Touches if size != 0 && size <= beyond => Some(Mismatch::Outgrown(beyond)),
        Access::Goes | Access::Touches | Access::Neither => None,
    }
}

/// What is wrong with a place in text, or from there at a distance that no link changes. By the promise text has only instructions.
fn wrong_place(file: &File, promised: bool, access: Access, address: u16) -> Option<Mismatch>
    ensures { result ≡ wrong_place file.now promised access address }
{
    let is_inside = usize::from(address) < 2 * file.text_words().len();
    match access {
        Access::Goes if address % 2 == 1 => Some(Mismatch::OddPlace(address)),
        Access::Touches if promised && is_inside => Some(Mismatch::TextTouched(address)),
        Access::Goes | Access::Touches | Access::Neither => None,
    }
}

/// What is wrong with what a word refers to.
fn mismatch_of(file: &File, promised: bool, access: Access, referent: Referent) -> Option<Mismatch>
    ensures { result ≡ mismatch_of file.now promised access referent }
{
    match referent {
        Referent::Number(number)
            if is_storage(file.header(), number) && has_stored_at(file, number) => {
            Some(Mismatch::Unmarked(number))
        }
        Referent::Near(address) if is_after_text(file, access, address) => {
            Some(Mismatch::Unrelocated(address))
        }
        Referent::Near(address) | Referent::InText(address) => {
            wrong_place(file, promised, access, address)
        }
        Referent::Fixed(address) if is_storage(file.header(), address) => {
            Some(Mismatch::Absolute(address))
        }
        Referent::InData(address) => goes(access).then_some(Mismatch::DataCalled(address)),
        Referent::External(number, beyond) => {
            let size = common_size(file.symbols().get(usize::from(number)));
            wrong_external(access, beyond, size)
        }
        Referent::Number(_) | Referent::Fixed(_) | Referent::Nothing => None,
    }
}

/// Whether it is sure if the line is, by the promise or without it.
fn is_certain(promised: bool, mismatch: Mismatch) -> bool
    ensures { result ≡ is_certain promised mismatch }
{
    match mismatch {
        Mismatch::Unmarked(_) => false,
        Mismatch::Absolute(address) => address >= 0o1000,
        Mismatch::Beyond(number) => number % 2 == 1,
        Mismatch::CommonCalled(_) | Mismatch::DataCalled(_) => promised,
        Mismatch::Unrelocated(_)
        | Mismatch::Outgrown(_)
        | Mismatch::OddPlace(_)
        | Mismatch::TextTouched(_) => true,
    }
}

/// What is wrong with a word, and what to do.
#[derive(Clone, Copy)]
struct Said {
    mismatch: Mismatch,
    is_sure: bool,
}

impl Display for Said {
    fn fmt<W: fmt::Write>(&self, f: &mut Formatter<W>) -> fmt::Result {
        let doubt = doubt_text(self.is_sure);
        match self.mismatch {
            Mismatch::Unmarked(n) => write!(
                f,
                " is not relocated, and {n:06o} is the address of a symbol of data or bss{doubt}: \
             if that is meant, its relocation word is 4 for data or 6 for bss"
            ),
            Mismatch::Unrelocated(n) => write!(
                f,
                " counts from the pc to {n:06o}, which is after text, and is not relocated{doubt}: \
             give it the relocation word of what is there, 5 for data or 7 for bss"
            ),
            Mismatch::Absolute(n) => write!(
                f,
                " counts from the pc to {n:06o}, which is in data or bss, and is of kind absolute{doubt}: \
             make its relocation word 5 for data or 7 for bss"
            ),
            Mismatch::Beyond(n) => write!(
                f,
                " is of a call or a jump, and adds {n:06o} to an external{doubt}: subtract that number"
            ),
            Mismatch::CommonCalled(n) => write!(
                f,
                " is of a call or a jump, and refers to a common of {n:06o} bytes{doubt}: \
             a function that is not defined has value 000000"
            ),
            Mismatch::Outgrown(n) => write!(
                f,
                " adds {n:06o} to a common, which is beyond it{doubt}: add no value of a symbol that is not defined"
            ),
            Mismatch::OddPlace(n) => write!(
                f,
                " is of a call or a jump, and refers to the odd address {n:06o}{doubt}: \
             an instruction begins at an even address"
            ),
            Mismatch::DataCalled(n) => write!(
                f,
                " is of a call or a jump, and refers to {n:06o}, which is in data or bss{doubt}: \
             a word that refers to text has relocation word 2, or 3 from the pc"
            ),
            Mismatch::TextTouched(n) => write!(
                f,
                " has its operand in memory at {n:06o}, which is in text{doubt}: \
             what an instruction reads or writes is in data or bss, of relocation word 4 or 6, or 5 or 7 from the pc"
            ),
        }
    }
}

/// An operand word at a place, of an instruction that jumps or calls or does not.
#[derive(Clone, Copy)]
struct Placed {
    jumps: bool,
    place: usize,
    word: u16,
}

/// Adds what is wrong with what an operand refers to.
fn find_reference(
    findings: &mut Findings,
    at: &Suspect<'_>,
    placed: Placed,
    operand: Option<Operand>,
)
    requires { placed.place ≤ 32770 }
    ensures { Finds findings.old findings.new (suspicious_reference at.now.lines.evidence
        at.now.lines.sweep.now at.now.trust placed.place placed.jumps operand
        placed.word) }
{
    let Some(Operand::General(mode, register)) = operand else {
        return;
    };
    let Some(addressing) = mode.addressing(register) else {
        return;
    };
    let file = at.lines.sweep.file();
    let Some(reloc) = reloc_at(file, placed.place) else {
        return;
    };
    let next = (2 * placed.place + 2) as u32;
    let referent = referred(addressing.counts_from_pc(), reloc, next, placed.word);
    let (promised, access) = (
        is_promised(at.lines.evidence),
        access_by(placed.jumps, addressing),
    );
    let Some(mismatch) = mismatch_of(file, promised, access, referent) else {
        return;
    };
    let is_sure = at.trust.is_sure && is_certain(promised, mismatch);
    let (address, said) = (2 * placed.place, Said { mismatch, is_sure });
    at.find(
        findings,
        is_sure,
        word_place(placed.place),
        FindingKind::UnsuitableReference,
        format_args!("the word at {address:06o}{said}"),
    );
}

/// Adds what is wrong with what the operands of a line refer to, if it is reached.
pub(crate) fn find_references(findings: &mut Findings, at: &Suspect<'_>, line: &UnixLine)
    ensures { Finds findings.old findings.new (suspicious_references at.now.lines.evidence
        at.now.lines.sweep.now at.now.trust at.now.start line.now) }
{
    if !at.trust.is_reached {
        return;
    }
    let UnixLine::Machine(Line::Decoded(instruction, word, other)) = *line else {
        return;
    };
    let jumps = instruction.row.operation.jumps();
    let place = at.start + 1;
    let first = Placed {
        jumps,
        place,
        word: word.unwrap_or(0),
    };
    let second = Placed {
        jumps,
        place: place + instruction.words_before_second(),
        word: other.unwrap_or(0),
    };
    find_reference(findings, at, first, instruction.first);
    find_reference(findings, at, second, instruction.second);
}
