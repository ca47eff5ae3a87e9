//! What a conversion leaves out.

/// Which local symbols stay in a converted object.
#[derive(Clone, Copy, Debug, PartialEq, Eq)]
pub enum Locals {
    KeepAll,
    /// Those to which a relocation word refers by number.
    KeepNeeded,
    KeepNone,
}

/// The options of a conversion.
#[derive(Clone, Copy, Debug, PartialEq, Eq)]
pub struct Options {
    /// Symbols for a debugger are dropped. If not, an object that has one is refused.
    pub drops_debugger: bool,
    pub locals: Locals,
}
