//! What stays the same while a call is run.
use link_out::Options;
use std::alloc::Global;

/// What a command needs beside its arguments: the allocator, and the options by which it links.
#[derive(Clone, Copy)]
pub(crate) struct Setting<'a> {
    pub(crate) alloc: Global,
    pub(crate) options: &'a Options,
}
