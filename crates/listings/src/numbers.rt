//! The numbers and names of columns.
ghost use Rattle.std.specs.Prelude.{◌≡◌, ◌≢◌, ℕ, List, [], ◌∷◌, IfOk, IfErr};
ghost use Rattle.aout_core.specs.Refusals.{refused};
ghost use Rattle.listings.specs.{declared.fault.RowFault.TheVariants.Memory, Octal.number, Names.{bytes_from, whole_name, name_of}};
ghost use Rattle.listings.specs.{Reading.in_column, internal.Answers.{Fails, Found}};

use crate::fault::{Reason, RowFault};
use aout_core::Name;
use std::alloc::Global;
use texts::is_printable;

pub(crate) fn number_at(place: usize, column: &[u8]) -> Result<u16, RowFault>
    ensures found { Found (λ n. n) result (in_column place (number column.now)) }
    ensures no_memory { IfErr result (λ fault. fault ≢ Memory refused) }
{
    if column.is_empty() {
        return Err(RowFault::Wrong(place, Reason::Missing));
    }
    let mut sum = 0u32;
    for byte in column {
        let byte = *byte;
        if byte < b'0' || byte > b'7' {
            return Err(RowFault::Wrong(place, Reason::NotOctal));
        }
        sum = 8 * sum + u32::from(byte - b'0');
        if sum > 65535 {
            return Err(RowFault::Wrong(place, Reason::TooLarge));
        }
    }
    Ok(sum as u16)
}

/// Takes a byte of a name; `left` digits of an escaped byte are still to come, and those before them make `sum`.
fn take_byte(
    bytes: &mut Vec<u8>,
    left: u8,
    sum: u8,
    place: usize,
    byte: u8,
) -> Result<(u8, u8), RowFault>
    ensures ok { IfOk result (λ s. (rest : List ℕ) → bytes_from bytes.new.items s.0 s.1 rest
        ≡ bytes_from bytes.old.items left sum (byte ∷ rest)) }
    ensures err { IfErr result (λ e. (rest : List ℕ)
        → Fails e (in_column place (bytes_from bytes.old.items left sum (byte ∷ rest)))) }
{
    if left == 0 {
        if byte == b'\\' {
            return Ok((3, 0));
        }
        if is_printable(byte) {
            bytes.push(byte)?;
            return Ok((0, 0));
        }
        return Err(RowFault::Wrong(place, Reason::BadName));
    }
    if byte < b'0' || byte > b'7' {
        return Err(RowFault::Wrong(place, Reason::BadName));
    }
    let next = 8 * u16::from(sum) + u16::from(byte - b'0');
    if next > 255 {
        return Err(RowFault::Wrong(place, Reason::BadName));
    }
    if left == 1 {
        bytes.push(next as u8)?;
        return Ok((0, 0));
    }
    Ok((left - 1, next as u8))
}

/// The bytes of the name in a column.
fn bytes_of(alloc: Global, place: usize, column: &[u8]) -> Result<Vec<u8>, RowFault>
    ensures { Found (λ v. v.items) result (in_column place (bytes_from [] 0 0 column.now)) }
{
    let mut bytes = Vec::new(alloc);
    let mut left = 0u8;
    let mut sum = 0u8;
    for byte in column {
        (left, sum) = take_byte(&mut bytes, left, sum, place, *byte)?;
    }
    if left == 0 {
        Ok(bytes)
    } else {
        Err(RowFault::Wrong(place, Reason::BadName))
    }
}

/// The name of these bytes, if none is lost.
fn whole_name(bytes: &[u8]) -> Result<Name, Reason>
    ensures { result ≡ whole_name bytes.now }
{
    if bytes.len() > 8 {
        return Err(Reason::LongName);
    }
    let name = Name::from_bytes(bytes);
    if bytes.len() > 1 + name.as_bytes().len() {
        return Err(Reason::BadName);
    }
    Ok(name)
}

pub(crate) fn name_at(alloc: Global, place: usize, column: &[u8]) -> Result<Name, RowFault>
    ensures { Found (λ n. n) result (in_column place (name_of column.now)) }
{
    if column.is_empty() {
        return Err(RowFault::Wrong(place, Reason::Missing));
    }
    let bytes = bytes_of(alloc, place, column)?;
    match whole_name(&bytes) {
        Ok(name) => Ok(name),
        Err(reason) => Err(RowFault::Wrong(place, reason)),
    }
}
