//! The text of a line. Only tested: what it says.
ghost use Rattle.std.specs.Prelude.{◌≡◌, ◌<◌};
ghost use Rattle.instructions.specs.Targets.{branch_target, branch_back_target};

use crate::instruction::Instruction;
use crate::line::Line;
use crate::mode::{Mode, Register};
use crate::operand::Operand;
use crate::operation::Operation;
use crate::reference::{Reference, References};
use texts::Text;

fn put_register(text: &mut Text, register: Register) {
    text.put(match register {
        Register::R0 => "r0",
        Register::R1 => "r1",
        Register::R2 => "r2",
        Register::R3 => "r3",
        Register::R4 => "r4",
        Register::R5 => "r5",
        Register::Sp => "sp",
        Register::Pc => "pc",
    });
}

fn put_in_parentheses(text: &mut Text, register: Register) {
    text.put(match register {
        Register::R0 => "(r0)",
        Register::R1 => "(r1)",
        Register::R2 => "(r2)",
        Register::R3 => "(r3)",
        Register::R4 => "(r4)",
        Register::R5 => "(r5)",
        Register::Sp => "(sp)",
        Register::Pc => "(pc)",
    });
}

/// The address to which an instruction at an address branches by an offset in words; from 0200 on the offset is negative.
/// (as(1))
pub fn branch_target(address: u16, offset: u16) -> u16
    ensures { result ≡ branch_target address offset }
{
    let below = if offset < 0o200 { 0 } else { 0o177000 };
    ((u32::from(address) + 2 + 2 * u32::from(offset) + below) % 0o200000) as u16
}

/// The address to which an instruction at an address branches by an offset in words backwards, less than 0100. (as(1))
pub fn branch_back_target(address: u16, offset: u16) -> u16
    ensures { result ≡ branch_back_target address offset }
{
    ((u32::from(address) + 0o400002 - 2 * u32::from(offset)) % 0o200000) as u16
}

/// What an operand shows besides its mode and register.
#[derive(Clone, Copy)]
struct Shown {
    /// Its word, or 0.
    word: u16,
    /// The address after its word.
    next: u16,
    /// Shown in place of the number.
    reference: Option<Reference>,
}

impl Shown {
    /// Appends a number, or the reference in its place.
    fn put(&self, text: &mut Text, number: u16) {
        match self.reference {
            Some(reference) => reference.put_text(text),
            None => text.put_octal(u64::from(number)),
        }
    }

    /// Appends an index, which has a sign, or the reference in its place.
    fn put_index(&self, text: &mut Text) {
        if self.reference.is_none() && self.word >= 0o100000 {
            text.put_byte(b'-');
            return text.put_octal(0o200000 - u64::from(self.word));
        }
        self.put(text, self.word);
    }

    fn put_general(&self, text: &mut Text, mode: Mode, register: Register) {
        use Mode::*;
        if matches!(mode, IncrementDeferred | DecrementDeferred | IndexDeferred) {
            text.put_byte(b'*');
        }
        if matches!(mode, Decrement | DecrementDeferred) {
            text.put_byte(b'-');
        }
        match (mode, register) {
            (Direct, _) => put_register(text, register),
            (Deferred | Decrement | DecrementDeferred, _) => put_in_parentheses(text, register),
            (Increment | IncrementDeferred, Register::Pc) => {
                text.put_byte(b'$');
                self.put(text, self.word);
            }
            (Increment | IncrementDeferred, _) => {
                put_in_parentheses(text, register);
                text.put_byte(b'+');
            }
            (Index | IndexDeferred, Register::Pc) => self.put(
                text,
                self.word.wrapping_add(self.next),
            ),
            (Index | IndexDeferred, _) => {
                self.put_index(text);
                put_in_parentheses(text, register);
            }
        }
    }

    /// Appends an operand of the instruction at an address.
    fn put_operand(&self, text: &mut Text, operand: Operand, address: u16) {
        match operand {
            Operand::General(mode, register) => self.put_general(text, mode, register),
            Operand::Accumulator(value) => {
                text.put("fr");
                text.put_octal(u64::from(value));
            }
            Operand::Register(register) => put_register(text, register),
            Operand::Forward(offset) => self.put(text, branch_target(address, offset)),
            Operand::Backward(offset) => self.put(text, branch_back_target(address, offset)),
            Operand::Number(value) => text.put_octal(u64::from(value)),
        }
    }
}

fn name(instruction: &Instruction) -> &'static str {
    match instruction.first {
        Some(Operand::Accumulator(_)) if instruction.row.base == 0o172400 => "ldf",
        _ => instruction.row.operation.name(),
    }
}

/// The name of a number.
macro_rules! named {
    ($value:expr; $($number:literal $name:literal,)*) => { match $value { $($number => Some($name),)* _ => None } };
}

/// The name of an instruction of the commercial set whose operands are in registers, by its number. (the handbook of the PDP-11/44)
fn commercial_name(number: u16) -> Option<&'static str> {
    named!(
        number;
        0o30 "movc", 0o31 "movrc", 0o32 "movtc", 0o40 "locc", 0o41 "skpc", 0o42 "scanc", 0o43 "spanc", 0o44 "cmpc", 0o45 "matc",
        0o50 "addn", 0o51 "subn", 0o52 "cmpn", 0o53 "cvtnl", 0o54 "cvtpn", 0o55 "cvtnp", 0o56 "ashn", 0o57 "cvtln",
        0o70 "addp", 0o71 "subp", 0o72 "cmpp", 0o73 "cvtpl", 0o74 "mulp", 0o75 "divp", 0o76 "ashp", 0o77 "cvtlp",
    )
}

/// Appends an instruction of the commercial set: `l2dr r1`, `movc`, or `movci` if its operands follow it as words; one without a
/// name by its number, `cis 200`. (the handbook of the PDP-11/44; `cis`: own choice)
fn put_commercial(text: &mut Text, number: u16) {
    let (name, is_inline) = (commercial_name(number % 0o100), number / 0o100 == 1);
    match (number, name) {
        (0o20..=0o27 | 0o60..=0o67, _) => {
            text.put(if number < 0o60 { "l2dr " } else { "l3dr " });
            put_register(text, Register::numbered(number % 8));
        }
        (0..=0o177, Some(name)) => {
            text.put(name);
            text.put(if is_inline { "i" } else { "" });
        }
        _ => {
            text.put("cis ");
            text.put_octal(u64::from(number));
        }
    }
}

impl Line {
    /// Appends the text of the line at an address, with these references in place of numbers. (as(1), the handbooks)
    pub fn put_text_with(&self, address: u16, references: &References, text: &mut Text) {
        let (instruction, word, other) = match self {
            Line::Plain(word) => return text.put_six_digits(u32::from(*word)),
            Line::Decoded(instruction, word, other) => (instruction, *word, *other),
        };
        if let (Operation::Commercial, Some(Operand::Number(number))) = (
            instruction.row.operation,
            instruction.first,
        ) {
            return put_commercial(text, number);
        }
        text.put(name(instruction));
        let mut shown = Shown {
            word: word.unwrap_or(0),
            next: address.wrapping_add(4),
            reference: references.first,
        };
        if let Some(operand) = instruction.first {
            text.put_byte(b' ');
            shown.put_operand(text, operand, address);
        }
        if let Some(operand) = instruction.second {
            text.put_byte(b',');
            shown = Shown {
                word: other.unwrap_or(0),
                next: shown
                    .next
                    .wrapping_add(2 * instruction.words_before_second() as u16),
                reference: references.second,
            };
            shown.put_operand(text, operand, address);
        }
    }

    /// Appends the text of the line at an address. (as(1))
    pub fn put_text(&self, address: u16, text: &mut Text) {
        let numbers = References {
            first: None,
            second: None,
        };
        self.put_text_with(address, &numbers, text);
    }
}
