//! What the addresses of a linked file refer to.

use crate::names::Names;
use crate::naming::reference_at;
use aout_core::{Header, Segment};
use instructions::{Addressing, Operation, Reference};

/// The segment in which an address lies, in the space of instructions or in that of data.
pub(crate) fn segment_at(header: &Header, fetches: bool, address: u16) -> Option<Segment> {
    let is_split = header.magic == 0o411;
    if address < header.text_size && (fetches || !is_split) {
        return Some(Segment::TextSeg);
    }
    if header.magic == 0o405 || (is_split && fetches) {
        return None;
    }
    let address = usize::from(address);
    let start = header.data_start();
    let end = start + usize::from(header.data_size);
    if start <= address && address < end {
        return Some(Segment::DataSeg);
    }
    if end <= address && address < end + usize::from(header.bss_size) {
        return Some(Segment::BssSeg);
    }
    None
}

/// What an address of the space of instructions or of that of data refers to.
pub(crate) fn located(
    header: &Header,
    names: &Names<'_>,
    fetches: bool,
    address: u16,
) -> Option<Reference> {
    reference_at(names, segment_at(header, fetches, address)?, address)
}

/// What an operand word refers to in a linked file; `next` is the address after it. Whether an immediate number or an index
/// is an address is not known.
pub(crate) fn linked_reference(
    header: &Header,
    names: &Names<'_>,
    operation: Operation,
    word: u16,
    next: u16,
    addressing: Addressing,
) -> Option<Reference> {
    match addressing {
        Addressing::Absolute => located(header, names, operation.jumps(), word),
        Addressing::Relative => {
            located(header, names, operation.jumps(), next.wrapping_add(word))
        }
        Addressing::RelativeDeferred => located(header, names, false, next.wrapping_add(word)),
        Addressing::Immediate | Addressing::Indexed => None,
    }
}
