//! The parts of a file whose header, sizes and strings are not refused.
ghost use Rattle.std.specs.Prelude.{◌≡◌, ◌+◌, ◌/◌, ◌≤◌, ◌<◌, ◌^◌, IfOk, IfErr, Some, None, length, take};
ghost use Rattle.aout_core.specs.{Decoding.header_in, Encoding.file_length};
ghost use Rattle.gnu_objects.specs.{GnuForm.{strings_of, symbols_of, relocation_of}, GnuRefusals.{sizes_refusal, strings_refusal}};
ghost use Rattle.gnu_objects.specs.internal.Sizes.{IsObjectHeader, IsWhole};

use crate::bytes::long_at;
use crate::checks::{header_refusal, strings_at, strings_refusal, symbols_at};
use crate::refusal::Refusal;
use crate::symbols::{GnuSymbol, symbols_from};
use crate::words::words_from;
use aout_core::Header;
use std::alloc::{AllocError, Global};

/// The header in the first 16 bytes.
pub(crate) fn header_of(bytes: &[u8]) -> Header
    requires { 16 ≤ length bytes.now }
    ensures { result ≡ header_in (take 16 bytes.now) }
{
    let mut start = [0; 16];
    start.copy_from_slice(&bytes[..16]);
    Header::read(&start)
}

/// The header, if nothing is wrong with it, with the sizes and with the strings.
pub(crate) fn whole_header(bytes: &[u8]) -> Result<Header, Refusal>
    ensures ok { IfOk result (λ header. IsWhole bytes.now header) }
    ensures err { IfErr result (λ refusal. sizes_refusal bytes.now ≡ Some refusal) }
{
    if bytes.len() < 16 {
        return Err(Refusal::ShortHeader);
    }
    let header = header_of(bytes);
    if let Some(refusal) = header_refusal(bytes.len(), &header) {
        return Err(refusal);
    }
    if let Some(refusal) = strings_refusal(bytes, &header) {
        return Err(refusal);
    }
    Ok(header)
}

/// The strings with their length, or none.
pub(crate) fn strings_of<'a>(bytes: &'a [u8], header: &Header) -> &'a [u8]
    requires { strings_refusal bytes.now header.now ≡ None }
    ensures { result.now ≡ strings_of bytes.now header.now }
{
    if header.symbol_size == 0 {
        return &bytes[..0];
    }
    let start = strings_at(header);
    &bytes[start..start + long_at(bytes, start) as usize]
}

#[tactic(auto, using(crate::proofs::FitsLemmas::lengths))]
pub(crate) fn symbols_of(
    alloc: Global,
    bytes: &[u8],
    header: &Header,
) -> Result<Vec<GnuSymbol>, AllocError>
    requires { file_length header.now ≤ length bytes.now }
    ensures value { IfOk result (λ v. v.items ≡ symbols_of bytes.now header.now) }
    ensures few { IfOk result (λ v. length v.items < 2 ^ 16) }
{
    let count = usize::from(header.symbol_size / 8);
    symbols_from(alloc, bytes, symbols_at(header), count)
}

/// The relocation words of text and of data.
#[tactic(auto, using(crate::proofs::FitsLemmas::lengths))]
pub(crate) fn relocation_of(
    alloc: Global,
    bytes: &[u8],
    header: &Header,
) -> Result<Vec<u16>, AllocError>
    requires { file_length header.now ≤ length bytes.now }
    ensures value { IfOk result (λ v. v.items ≡ relocation_of bytes.now header.now) }
    ensures count { IfOk result (λ v.
        length v.items ≡ header.now.text_size / 2 + header.now.data_size / 2) }
    ensures short { IfOk result (λ v. length v.items ≤ 2 ^ 16) }
{
    let text = usize::from(header.text_size / 2);
    let data = usize::from(header.data_size / 2);
    if header.flag == 0 {
        let start = 16 + usize::from(header.text_size) + usize::from(header.data_size);
        words_from(alloc, bytes, start, text + data)
    } else {
        vec![in alloc; 0u16; text + data]
    }
}
