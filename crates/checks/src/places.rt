//! The places of the parts of a file, by the sizes in its header, and their addresses in memory.
ghost use Rattle.std.specs.Prelude.{◌≡◌, ◌+◌, ◌^◌, ◌<◌};
ghost use Rattle.aout_core.specs.Encoding.{relocation_at, symbols_at, file_length};
ghost use Rattle.checks.specs.{Segments.has_address, Odd.symbol_at, Outside.{first_of, last_of}};

use aout_core::{Header, Name, Segment, Symbol};
use disassemblies::Names;
use std::fmt::{self, Display, Formatter, Write};
use texts::Printable;

/// The bytes of a file at which its parts begin, and the first after them.
#[derive(Clone, Copy)]
pub struct FilePlaces {
    pub text: usize,
    pub data: usize,
    pub relocation: usize,
    pub symbols: usize,
    pub end: usize,
}

impl FilePlaces {
    /// The places that a header announces.
    pub fn of(header: &Header) -> FilePlaces
        ensures first { result.text ≡ 16 }
        ensures second { result.«data» ≡ 16 + header.now.text_size }
        ensures relocation { result.relocation ≡ relocation_at header.now }
        ensures symbols { result.symbols ≡ symbols_at header.now }
        ensures end { result.end ≡ file_length header.now }
        ensures small { result.end < 2 ^ 20 }
        ensures before { result.relocation < 2 ^ 18 }
    {
        let text = 16;
        let data = text + usize::from(header.text_size);
        let relocation = data + usize::from(header.data_size);
        let segments = relocation - text;
        let symbols = if header.flag == 0 {
            relocation + segments
        } else {
            relocation
        };
        FilePlaces {
            text,
            data,
            relocation,
            symbols,
            end: symbols + usize::from(header.symbol_size),
        }
    }
}

/// Where the entry of a symbol begins in a file with this header.
pub(crate) fn symbol_at(header: &Header, number: usize) -> usize
    requires { number < 65536 }
    ensures value { result ≡ symbol_at header.now number }
    ensures small { result < 2 ^ 21 }
{
    FilePlaces::of(header).symbols + 12 * number
}

/// Addresses at which a segment begins and ends.
#[derive(Clone, Copy)]
pub(crate) struct Range {
    pub(crate) start: u32,
    pub(crate) end: u32,
}

/// Where a segment of a file with this header lies; text for one without addresses of its own.
pub(crate) fn range_of(header: &Header, segment: Segment) -> Range
    ensures start { result.start ≡ first_of header.now segment }
    ensures end { result.end ≡ last_of header.now segment }
{
    let data = header.data_start() as u32;
    let bss = data + u32::from(header.data_size);
    let (start, end) = match segment {
        Segment::DataSeg => (data, bss),
        Segment::BssSeg => (bss, bss + u32::from(header.bss_size)),
        Segment::TextSeg | Segment::Undefined | Segment::Absolute | Segment::Other => (
            0,
            u32::from(header.text_size),
        ),
    };
    Range { start, end }
}

/// The name of a segment that has addresses: text, data or bss.
pub fn segment_name(segment: Segment) -> &'static str {
    match segment {
        Segment::DataSeg => "data",
        Segment::BssSeg => "bss",
        Segment::TextSeg | Segment::Undefined | Segment::Absolute | Segment::Other => "text",
    }
}

/// Whether a segment of a file with this header has an address, or ends at it. Segments other than text, data and bss have all.
pub(crate) fn has_address(header: &Header, segment: Segment, address: u16) -> bool
    ensures { result ≡ has_address header.now segment address }
{
    let (range, at) = (range_of(header, segment), u32::from(address));
    match segment {
        Segment::TextSeg => address <= header.text_size,
        Segment::DataSeg | Segment::BssSeg => range.start <= at && at <= range.end,
        Segment::Undefined | Segment::Absolute | Segment::Other => true,
    }
}

/// Where a segment lies that an address is outside of, and what to add if that counts from its start.
#[derive(Clone, Copy)]
pub(crate) struct Outside {
    pub(crate) segment: Segment,
    pub(crate) range: Range,
    pub(crate) address: u16,
}

impl Display for Outside {
    fn fmt<W: fmt::Write>(&self, f: &mut Formatter<W>) -> fmt::Result {
        let (label, start, end) = (segment_name(self.segment), self.range.start, self.range.end);
        write!(f, "{label} lies from {start:06o} to {end:06o}")?;
        if start > 0 && u64::from(self.address) + u64::from(start) <= u64::from(end) {
            write!(
                f,
                " (perhaps counted from the start of {label}: add {start:06o})"
            )?;
        }
        Ok(())
    }
}

/// An address of text, with the nearest label at it or before it: `000022 (_stat+22)`.
#[derive(Clone, Copy)]
pub struct TextAddress<'a> {
    pub names: &'a Names<'a>,
    pub address: u16,
}

impl Display for TextAddress<'_> {
    fn fmt<W: fmt::Write>(&self, f: &mut Formatter<W>) -> fmt::Result {
        let address = self.address;
        write!(f, "{address:06o}")?;
        match self.names.nearest_label(Segment::TextSeg, address) {
            Some(label) if label.offset > 0 => {
                write!(f, " ({}+{:o})", SymbolName(&label.name), label.offset)
            }
            Some(label) => write!(f, " ({})", SymbolName(&label.name)),
            None => Ok(()),
        }
    }
}

/// The name of a symbol in a format; an empty one is `\000`.
#[derive(Clone, Copy)]
pub(crate) struct SymbolName<'a>(pub(crate) &'a Name);

impl Display for SymbolName<'_> {
    fn fmt<W: fmt::Write>(&self, f: &mut Formatter<W>) -> fmt::Result {
        let name = self.0.as_bytes();
        write!(
            f,
            "{}",
            Printable(if name.is_empty() { b"\0" } else { name })
        )
    }
}

/// What a finding calls a symbol: `symbol 3 _f`.
#[derive(Clone, Copy)]
pub struct Title<'a> {
    pub number: usize,
    pub symbol: &'a Symbol,
}

impl Display for Title<'_> {
    fn fmt<W: fmt::Write>(&self, f: &mut Formatter<W>) -> fmt::Result {
        write!(
            f,
            "symbol {} {}",
            self.number,
            SymbolName(&self.symbol.name)
        )
    }
}
