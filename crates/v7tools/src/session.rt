//! Sessions: the lines of a script, the step that each asks for, and its answer.
pub(crate) mod command;
pub(crate) mod commands;
pub(crate) mod externals;
pub(crate) mod link_answers;
pub(crate) mod script;
pub(crate) mod steps;
