//! Where the segments of objects lie, and the words in them.
ghost use Rattle.std.specs.Prelude.{◌≡◌, map, IfOk};
ghost use Rattle.link_maps.specs.Members.{capped, first_places, member_of, next_places, places_from, start_in};

use crate::members::Listed;
use aout_core::{Header, Part};
use link_out::Bases;
use std::alloc::{AllocError, Global};

/// Where each segment of an object lies, in bytes; counted from 0 in its merged segment if an object is refused. A sum
/// that passes the largest number stays there.
#[derive(Clone, Copy, Debug)]
pub struct Places {
    pub text: u64,
    pub data: u64,
    pub bss: u64,
}

/// Where the segments of the first object lie.
pub(crate) fn first_places(bases: Option<Bases>) -> Places
    ensures { result ≡ first_places bases }
{
    match bases {
        Some(bases) => Places {
            text: 0,
            data: bases.data_start,
            bss: bases.bss_start,
        },
        None => Places::NONE,
    }
}

impl Places {
    /// At 0.
    pub(crate) const NONE: Places = Places {
        text: 0,
        data: 0,
        bss: 0,
    };

    /// Where the segments of the object after one with this header lie.
    pub(crate) fn next(&self, header: &Header) -> Places
        ensures { result ≡ next_places self.now header.now }
    {
        Places {
            text: self.text.saturating_add(header.text_size as u64),
            data: self.data.saturating_add(header.data_size as u64),
            bss: self.bss.saturating_add(header.bss_size as u64),
        }
    }

    /// The address so many bytes after the start of a part of the object.
    pub fn address(&self, part: Part, offset: u16) -> u64
        ensures { result ≡ capped (start_in self.now part) offset }
    {
        let start = match part {
            Part::Text => self.text,
            Part::Data => self.data,
        };
        start.saturating_add(offset as u64)
    }
}

/// Where the segments of each object lie, those of an object after those of the object before it. An error: out of memory.
pub(crate) fn places_of(
    alloc: Global,
    bases: Option<Bases>,
    all: &[Listed<'_>],
) -> Result<Vec<Places>, AllocError>
    ensures { IfOk result (λ places.
        places.items ≡ places_from (first_places bases) (map member_of all.now)) }
{
    let mut places = Vec::new(alloc);
    let mut at = first_places(bases);
    for object in all {
        places.push(at)?;
        at = at.next(object.file.header());
    }
    Ok(places)
}
