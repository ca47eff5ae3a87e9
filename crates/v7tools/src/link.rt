//! The link of files, as ld makes it.
pub(crate) mod additions;
pub(crate) mod command;
pub(crate) mod emitting;
pub(crate) mod linking;
