//! The files that are to be converted, read whole.
ghost use Rattle.std.specs.Prelude.{[]};
ghost use Rattle.v7_from_gnu.specs.{Readings.IsReading, internal.Lists.listed};

use crate::arguments::Job;
use crate::program::NAME;
use host::{Fault, FileSystem, read_whole};
use std::alloc::Global;
use std::marker::Model;

/// The most bytes of an object that is read. The strings may be of any length; the rest is 327,690 bytes at most.
const MOST_BYTES: u32 = 16_777_216;

/// A file that was read, and the path where its object is to go.
#[derive(Drop)]
pub(crate) struct Source {
    pub(crate) from: String,
    pub(crate) to: String,
    pub(crate) bytes: Vec<u8>,
}

impl Model for Source {
    ghost use Rattle.std.specs.Prelude.{string_bytes};
    ghost use Rattle.v7_from_gnu.specs.Jobs as spec;

    ghost Value = { spec.Source };

    ghost view = { λ s. record { from = string_bytes s.from; to = string_bytes s.to; bytes = s.bytes.items } };
}

/// Reads each file before the next one is opened, up to the first that can't be read.
pub(crate) fn read_all<O: FileSystem>(
    alloc: Global,
    file_system: &mut O,
    jobs: Vec<Job>,
) -> Result<Vec<Source>, Fault>
    ensures { IsReading (O.history file_system.old) (O.history file_system.new) [] jobs.items
        (listed result) }
{
    let mut sources = Vec::new(alloc);
    for job in jobs {
        let Job { from, to } = job;
        let bytes = match read_whole(alloc, file_system, NAME, from.as_str(), MOST_BYTES) {
            Ok(bytes) => bytes,
            Err(fault) => return Err(fault),
        };
        sources.push(Source { from, to, bytes })?;
    }
    Ok(sources)
}
