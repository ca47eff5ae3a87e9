//! Files of commands: how one is read, and the commands nm, size and strip.
pub(crate) mod commands;
pub(crate) mod loading;
