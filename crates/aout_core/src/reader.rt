//! Reading a file.
ghost use Rattle.std.specs.Prelude.{◌≡◌, ◌↔◌, ◌+◌, ◌<◌, ◌≤◌, false, length, IfOk, IfErr, IsOk, OnErr, IfSome, IsTrue};
ghost use Rattle.aout_core.specs.{Contents.has_whole_sizes, Parts.contents_of, Encoding.file_length};
ghost use Rattle.aout_core.specs.Decoding.{contents_in, decode, header_in};
ghost use Rattle.aout_core.specs.internal.ReadParts.{HasNoItems, HasCapacity, IsBodyRead, IsHeaderRead, TakesBody};
ghost use Rattle.aout_core.specs.{Reading.{IsFileHeader, IsReadOf, LeavesAfter}, Refusals.device_fault};

use crate::file::{File, Parts, ReadFault, has_whole_sizes, is_magic};
use crate::header::Header;
use crate::incoming::Incoming;
use crate::item::{read_items, take_items};
use crate::wire::Wire;
use std::alloc::{AllocError, Global};
use std::io::Read;

/// Makes room in the lists of parts for what their header announces.
fn reserve_lists(parts: &mut Parts) -> Result<(), AllocError>
    requires { HasNoItems parts.old }
    ensures reserved { IfOk result (λ _. HasCapacity parts.old.header parts.new) }
    ensures announced { OnErr result (16 < file_length parts.old.header) }
{
    let text = parts.header.text_size as usize;
    let data = parts.header.data_size as usize;
    let symbols = parts.header.symbol_size as usize;
    let text_reloc = parts.header.with_relocation(parts.header.text_size) as usize;
    let data_reloc = parts.header.with_relocation(parts.header.data_size) as usize;
    parts.text_words.reserve_exact(text / 2)?;
    parts.data_words.reserve_exact(data / 2)?;
    parts.text_reloc.reserve_exact(text_reloc / 2)?;
    parts.data_reloc.reserve_exact(data_reloc / 2)?;
    parts.symbols.reserve_exact(symbols / 12)
}

/// Empty parts with room for what the header announces.
fn parts_with_capacity(alloc: Global, header: Header) -> Result<Parts, AllocError>
    ensures reserved { IfOk result (HasCapacity header) }
    ensures announced { OnErr result (16 < file_length header) }
{
    let mut parts = Parts {
        header,
        text_words: Vec::new(alloc),
        data_words: Vec::new(alloc),
        text_reloc: Vec::new(alloc),
        data_reloc: Vec::new(alloc),
        symbols: Vec::new(alloc),
    };
    reserve_lists(&mut parts)?;
    Ok(parts)
}

/// Fills the lists of the parts, in their order.
fn read_lists<R: Read>(parts: &mut Parts, wire: &mut Wire<R>) -> Result<(), ReadFault>
    requires works { wire.old.has_failed ≡ false }
    requires reserved { HasCapacity parts.old.header parts.old }
    requires sizes { IsTrue (has_whole_sizes parts.old.header) }
    ensures device { (result ≡ Err (ReadFault.Device device_fault)) ↔ IsTrue wire.new.has_failed }
    ensures value { IfOk result (λ _. TakesBody parts.old.header
        (R.remaining wire.old.device) (R.remaining wire.new.device) (contents_of parts.new)) }
    ensures end { IfErr result (λ fault. IsBodyRead parts.old.header
        (R.remaining wire.old.device) (R.remaining wire.new.device) (Err fault)) }
{
    let header = parts.header;
    let text_reloc = header.with_relocation(header.text_size) as usize;
    let data_reloc = header.with_relocation(header.data_size) as usize;
    let symbols = parts.header.symbol_size as usize;
    let mut from = Incoming::new(header.body_size());
    take_items(
        header.text_size as usize / 2,
        &mut parts.text_words,
        &mut from,
        wire,
    )?;
    take_items(
        header.data_size as usize / 2,
        &mut parts.data_words,
        &mut from,
        wire,
    )?;
    take_items(text_reloc / 2, &mut parts.text_reloc, &mut from, wire)?;
    take_items(data_reloc / 2, &mut parts.data_reloc, &mut from, wire)?;
    take_items(symbols / 12, &mut parts.symbols, &mut from, wire)
}

/// Reads a header, and refuses one that no file has.
fn read_header<R: Read>(wire: &mut Wire<R>) -> Result<Header, ReadFault>
    ensures device { (result ≡ Err (ReadFault.Device device_fault)) ↔ IsTrue wire.new.has_failed }
    ensures latched { IsTrue wire.old.has_failed → (wire.new ≡ wire.old) }
    ensures value { IsHeaderRead
        (R.remaining wire.old.device) (R.remaining wire.new.device) result }
{
    let mut start = [0u8; 16];
    if wire.fill(&mut start)? < 16 {
        return Err(ReadFault::ShortHeader);
    }
    let header = Header::read(&start);
    if !is_magic(header.magic) {
        return Err(ReadFault::BadMagic);
    }
    if !has_whole_sizes(&header) {
        return Err(ReadFault::OddSize);
    }
    Ok(header)
}

/// Reads what follows the header.
fn read_body<R: Read>(alloc: Global, header: Header, wire: &mut Wire<R>) -> Result<File, ReadFault>
    requires header { IsFileHeader header }
    requires works { wire.old.has_failed ≡ false }
    ensures device { (result ≡ Err (ReadFault.Device device_fault)) ↔ IsTrue wire.new.has_failed }
    ensures value { IsBodyRead header
        (R.remaining wire.old.device) (R.remaining wire.new.device) result }
{
    let mut parts = parts_with_capacity(alloc, header)?;
    read_lists(&mut parts, wire)?;
    Ok(File::from_parts(parts))
}

/// Reads one file, and leaves what follows its symbols. (a.out(5); the refusals: own choice)
///
/// Errors, the first that applies: `ShortHeader`, 1, at an early end of the 16 bytes; `BadMagic`, 2, if no file begins so;
/// `OddSize`, 3, if a size is not whole; `Memory`, 4, if memory runs out for what the header announces. Then `Truncated`,
/// 5, at an early end of the rest. `Device`, 6, if the device failed, in this call or before it. After `BadMagic`,
/// `OddSize` and `Memory` all that follows the 16 bytes of the header is still unread.
pub fn read_file<R: Read>(alloc: Global, wire: &mut Wire<R>) -> Result<File, ReadFault>
    ensures device { (result ≡ Err (ReadFault.Device device_fault)) ↔ IsTrue wire.new.has_failed }
    ensures latched { IsTrue wire.old.has_failed → (wire.new ≡ wire.old) }
    ensures decodes { IfSome (R.remaining wire.old.device) (λ bytes.
        IsReadOf result bytes × LeavesAfter result bytes (R.remaining wire.new.device)) }
{
    let header = read_header(wire)?;
    read_body(alloc, header, wire)
}

/// Fills the lists of the parts, in their order, from the bytes of a whole file.
fn fill_lists(parts: &mut Parts, bytes: &[u8])
    requires reserved { HasCapacity parts.old.header parts.old }
    requires sizes { IsTrue (has_whole_sizes parts.old.header) }
    requires whole { file_length parts.old.header ≤ length bytes.now }
    ensures { contents_of parts.new ≡ contents_in parts.old.header bytes.now }
{
    let header = parts.header;
    let text_reloc = header.with_relocation(header.text_size) as usize;
    let data_reloc = header.with_relocation(header.data_size) as usize;
    let (_, rest) = bytes.split_at(16);
    let (text, rest) = rest.split_at(header.text_size as usize);
    let (data, rest) = rest.split_at(header.data_size as usize);
    let (first, rest) = rest.split_at(text_reloc);
    let (second, rest) = rest.split_at(data_reloc);
    let (table, _) = rest.split_at(header.symbol_size as usize);
    read_items(text, header.text_size as usize / 2, &mut parts.text_words);
    read_items(data, header.data_size as usize / 2, &mut parts.data_words);
    read_items(first, text_reloc / 2, &mut parts.text_reloc);
    read_items(second, data_reloc / 2, &mut parts.data_reloc);
    read_items(table, header.symbol_size as usize / 12, &mut parts.symbols);
}

/// The file that bytes begin with, or why they begin with none: as `read_file` reads them from a device that does not fail.
/// (a.out(5); the refusals: own choice)
///
/// Errors: `AllocError` if memory runs out for what a whole file has after its header.
#[tactic(auto, using(crate::proofs::DecodingLemmas::contents_in_fits))]
pub fn decode_file(alloc: Global, bytes: &[u8]) -> Result<Result<File, ReadFault>, AllocError>
    ensures decodes { IfOk result (λ read. read ≡ decode bytes.now) }
    ensures memory { OnErr result (IsOk (decode bytes.now) × (16 < file_length (header_in bytes.now))) }
{
    let Some(start) = bytes.first_chunk::<16>() else {
        return Ok(Err(ReadFault::ShortHeader));
    };
    let header = Header::read(start);
    if !is_magic(header.magic) {
        return Ok(Err(ReadFault::BadMagic));
    }
    if !has_whole_sizes(&header) {
        return Ok(Err(ReadFault::OddSize));
    }
    if bytes.len() < 16 + header.body_size() {
        return Ok(Err(ReadFault::Truncated));
    }
    let mut parts = parts_with_capacity(alloc, header)?;
    fill_lists(&mut parts, bytes);
    Ok(Ok(File::from_parts(parts)))
}
