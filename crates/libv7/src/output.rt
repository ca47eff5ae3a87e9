//! What a link gives.
ghost use Rattle.std.specs.Prelude.{◌≡◌, ◌≤◌, [], length};

use crate::findings::ReportedName;
use crate::places::FindingPlace;
use link_maps::MapRecords;
use std::alloc::Global;

/// What becomes of a link, and where its segments lie.
#[repr(C)]
#[derive(Clone, Copy, Debug, PartialEq, Eq)]
pub struct MapHead {
    /// The end of text, and the beginnings and ends of data and bss; 0 if an object is refused.
    pub text_end: u64,
    pub data_start: u64,
    pub data_end: u64,
    pub bss_start: u64,
    pub bss_end: u64,
    /// The number of the object that is refused.
    pub place: usize,
    /// 0 if the link is made; else why it is refused, or the object.
    pub fault: u32,
    /// 1 if a link that is made has something to report, and 2 if its entry point is not in text.
    pub state: u32,
    /// The first word of the file.
    pub magic: u16,
    /// The address of the entry point.
    pub entry_point: u16,
    /// The name of an entry point that is not in text, filled up with NULs.
    pub entry_name: [u8; 8],
}

/// What a link gives. What is not wanted is empty. (ld(1))
#[derive(Drop)]
pub struct LinkOutput {
    /// 0 if there is nothing to report, else 1.
    pub status: u8,
    /// The bytes of the linked file.
    pub file: Vec<u8>,
    /// The lines of the report.
    pub report: Vec<u8>,
    /// What is reported, in the order of the lines.
    pub findings: Vec<ReportedName>,
    /// The objects of what is reported, by their numbers among those that are linked.
    pub places: Vec<FindingPlace>,
    /// What becomes of the link, if its map is wanted; else all 0.
    pub head: MapHead,
    /// The records of the map.
    pub records: MapRecords,
    // a file that fits its header has no more
    ghost most: { length file.items ≤ 327684 },
}

/// The head without a map.
pub(crate) const NO_HEAD: MapHead = MapHead {
    text_end: 0,
    data_start: 0,
    data_end: 0,
    bss_start: 0,
    bss_end: 0,
    place: 0,
    fault: 0,
    state: 0,
    magic: 0,
    entry_point: 0,
    entry_name: [0; 8],
};

/// The records without a map.
pub(crate) fn no_records(alloc: Global) -> MapRecords
    ensures objects { result.objects.items ≡ [] }
    ensures names { result.names.items ≡ [] }
    ensures uses { result.uses.items ≡ [] }
    ensures limits { result.limits.items ≡ [] }
{
    MapRecords {
        objects: Vec::new(alloc),
        names: Vec::new(alloc),
        uses: Vec::new(alloc),
        limits: Vec::new(alloc),
    }
}
