//! What a call says besides the bytes that it gives.
ghost use Rattle.std.specs.Prelude.{◌≡◌};
ghost use Rattle.libv7.specs.Left.{given, header_of, no_header, refused};

use crate::cause::Refusal;
use aout_core::Header;

/// What a call says besides the bytes that it gives. `v7.h` has the numbers of the faults.
#[repr(C)]
#[derive(Clone, Copy)]
pub struct Answer {
    /// Why the call gives nothing, as a number; 0 if it gives something.
    pub fault: u32,
    /// The index of the bad word, if the fault is in a word.
    pub word: u32,
    /// The number of the object or of the forced name that has the fault, the line of a listing, or the byte of an object in GNU's form.
    pub place: usize,
    /// How many bytes there are for the first buffer.
    pub size: usize,
    /// How many remarks there are.
    pub report_size: usize,
}

/// How many words and symbols an object has.
#[repr(C)]
#[derive(Clone, Copy)]
pub struct Counts {
    /// The words of the text.
    pub text: usize,
    /// The words of the data.
    pub data: usize,
    pub symbols: usize,
    /// The size of bss in bytes.
    pub bss: u32,
}

/// The eight words that a file begins with, as `aout_core` has them. (a.out(5))
#[repr(C)]
#[derive(Clone, Copy)]
pub struct FileHeader {
    pub magic: u16,
    pub text_size: u16,
    pub data_size: u16,
    pub bss_size: u16,
    pub symbol_size: u16,
    pub entry_point: u16,
    pub unused: u16,
    pub flag: u16,
}

impl FileHeader {
    /// The words of a header.
    pub(crate) fn of(header: &Header) -> FileHeader
        ensures { result ≡ header_of header.now }
    {
        FileHeader {
            magic: header.magic,
            text_size: header.text_size,
            data_size: header.data_size,
            bss_size: header.bss_size,
            symbol_size: header.symbol_size,
            entry_point: header.entry_point,
            unused: header.unused,
            flag: header.flag,
        }
    }

    /// Eight words of 0.
    pub(crate) fn none() -> FileHeader
        ensures { result ≡ no_header }
    {
        FileHeader {
            magic: 0,
            text_size: 0,
            data_size: 0,
            bss_size: 0,
            symbol_size: 0,
            entry_point: 0,
            unused: 0,
            flag: 0,
        }
    }
}

impl Answer {
    /// Nothing is given, for this cause.
    pub(crate) fn refused(refusal: Refusal) -> Answer
        ensures { result ≡ refused refusal }
    {
        let (fault, word) = refusal.cause.code();
        Answer {
            fault,
            word,
            place: refusal.place,
            size: 0,
            report_size: 0,
        }
    }

    /// So many bytes are given, or with a fault would have been.
    pub(crate) fn given(fault: u32, size: usize, report_size: usize) -> Answer
        ensures { result ≡ given fault size report_size }
    {
        Answer {
            fault,
            word: 0,
            place: 0,
            size,
            report_size,
        }
    }
}
