//! What a link has at an address.
ghost use Rattle.std.specs.Prelude.{◌≡◌, ◌-◌, ◌&&◌, nat_le, nat_lt};

use crate::map::{LinkMap, bases_of};
use crate::members::Listed;
use aout_core::Part;
use std::alloc::{AllocError, Global};

/// What a link has at an address. Objects are counted from 0.
#[derive(Clone, Copy, Debug)]
pub enum Spot {
    /// A byte of an object's text or data, or of its bss without a part: so many bytes after the first.
    Object {
        object: usize,
        part: Option<Part>,
        offset: u16,
    },
    /// A byte of a common, with its address.
    Common(u64),
}

/// Whether an address is in a segment.
pub fn is_within(start: u64, size: u16, address: u64) -> bool
    ensures { result ≡ (nat_le start address && nat_lt (address - start) size) }
{
    start <= address && address - start < u64::from(size)
}

/// What the link of these objects has at an address, in their order: several if the segments have addresses in common, and nothing
/// outside of the segments.
///
/// An error: out of memory.
pub fn spots_at(
    alloc: Global,
    map: &LinkMap,
    all: &[Listed<'_>],
    address: u64,
) -> Result<Vec<Spot>, AllocError> {
    let mut spots = Vec::new(alloc);
    for (object, (listed, at)) in all.iter().zip(&map.places).enumerate() {
        let header = listed.file.header();
        for (part, start, size) in [
            (Some(Part::Text), at.text, header.text_size),
            (Some(Part::Data), at.data, header.data_size),
            (None, at.bss, header.bss_size),
        ] {
            if is_within(start, size, address) {
                let offset = (address.saturating_sub(start) % 65536) as u16;
                spots.push(Spot::Object {
                    object,
                    part,
                    offset,
                })?;
            }
        }
    }
    if let Some(bases) = bases_of(&map.outcome)
        && bases.data_end <= address
        && address < bases.bss_start
    {
        spots.push(Spot::Common(address))?;
    }
    Ok(spots)
}
