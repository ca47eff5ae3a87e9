//! What has been read of a file so far.
ghost use Rattle.std.specs.Prelude.{◌≡◌};
ghost use Rattle.listings.specs.{Drafts.empty_draft, internal.DraftParts.draft_of};

use crate::fault::Section;
use aout_core::{Reloc, Symbol};
use std::alloc::Global;

/// What is done with the address that a listing has for a word.
#[derive(Clone, Copy, Debug, PartialEq, Eq)]
pub enum Addresses {
    /// It has to be that of the next word.
    Compared,
    /// Any address is taken for that of the next word.
    Computed,
}

/// The words of a segment, and the relocation words.
#[derive(Drop)]
pub(crate) struct SegmentDraft {
    pub(crate) words: Vec<u16>,
    pub(crate) relocs: Vec<Reloc>,
}

/// What has been read of a file.
#[derive(Drop)]
pub(crate) struct FileDraft {
    pub(crate) addresses: Addresses,
    pub(crate) section: Section,
    pub(crate) next: u16,
    pub(crate) magic: u16,
    pub(crate) bss: u16,
    pub(crate) entry: u16,
    pub(crate) unused: u16,
    pub(crate) flag: u16,
    pub(crate) text_part: SegmentDraft,
    pub(crate) data_part: SegmentDraft,
    pub(crate) symbols: Vec<Symbol>,
}

impl FileDraft {
    /// Nothing has been read.
    pub(crate) fn new(alloc: Global, addresses: Addresses) -> FileDraft
        ensures { draft_of result ≡ empty_draft addresses }
    {
        FileDraft {
            addresses,
            section: Section::InHeader,
            next: 0,
            magic: 0o407,
            bss: 0,
            entry: 0,
            unused: 0,
            flag: 0,
            text_part: SegmentDraft {
                words: Vec::new(alloc),
                relocs: Vec::new(alloc),
            },
            data_part: SegmentDraft {
                words: Vec::new(alloc),
                relocs: Vec::new(alloc),
            },
            symbols: Vec::new(alloc),
        }
    }
}
