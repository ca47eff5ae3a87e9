//! The nm line of one symbol.
ghost use Rattle.std.specs.Prelude.{◌≡◌, ◌≤◌};
ghost use Rattle.aout_core.specs.{Wires.Writes, WellFormed.masked_type};
ghost use Rattle.symtools.specs.SymbolLines.{small_letter, letter, is_shown_undefined, value_column, symbol_line};

use crate::buffer::LineBuffer;
use aout_core::{DeviceFault, Symbol, Wire};
use std::io::Write;
use texts::six_digits;

/// Writes the line of one symbol as nm does, with its newline: the value, a blank, the letter, a blank, the name. The value
/// has six octal digits, or six blanks for the letters u and U. (nm(1))
///
/// The letter is by the type word masked with 037: 0 with value 0 is `u` and with another value `c`, 1 is `a`, 2 `t`,
/// 3 `d`, 4 `b`, 024 `r`, 037 `f`, any other `a`. It is upper case for an external symbol.
pub fn line<W: Write>(symbol: &Symbol, out: &mut Wire<W>) -> Result<(), DeviceFault>
    ensures { Writes W.contents result out.old out.new (symbol_line symbol.now) }
{
    let text = line_of(symbol);
    out.put(text.as_bytes())
}

/// The line of one symbol, as `line` writes it. (nm(1))
pub fn line_of(symbol: &Symbol) -> LineBuffer
    ensures { result ≡ symbol_line symbol.now }
{
    let mut text = LineBuffer::new();
    text.push(&value_column(symbol));
    text.push(&[b' ', letter(symbol), b' ']);
    text.push(symbol.name.as_bytes());
    text.push(b"\n");
    text
}

/// The value of a symbol as nm shows it: six octal digits, or six blanks for the letters u and U. (nm(1))
pub fn value_column(symbol: &Symbol) -> [u8; 6]
    ensures { result ≡ value_column symbol.now }
{
    if is_shown_undefined(symbol) {
        *b"      "
    } else {
        six_digits(u32::from(symbol.value))
    }
}

/// Whether the letter of a symbol is u or U.
pub(crate) fn is_shown_undefined(symbol: &Symbol) -> bool
    ensures { result ≡ is_shown_undefined symbol.now }
{
    matches!(letter(symbol), b'u' | b'U')
}

/// The letter that nm shows for a symbol, by its masked type and, for type 0, its value: see `line`. (nm(1))
pub fn letter(symbol: &Symbol) -> u8
    ensures { result ≡ letter symbol.now }
{
    let small = small_letter(symbol);
    if symbol.is_external() {
        small - (b'a' - b'A')
    } else {
        small
    }
}

fn small_letter(symbol: &Symbol) -> u8
    ensures letter { result ≡ small_letter (masked_type symbol.now) symbol.now.value }
    ensures small { 97 ≤ result }
{
    match symbol.type_bits % 0o40 {
        0 if symbol.value == 0 => b'u',
        0 => b'c',
        2 => b't',
        3 => b'd',
        4 => b'b',
        0o24 => b'r',
        0o37 => b'f',
        _ => b'a',
    }
}
