//! What a link is asked for.
ghost use Rattle.std.specs.Prelude.{◌≡◌, None, Some, false, true, IfOk, IfErr, IsOk, ◌↔◌};
ghost use Rattle.tool_options.specs.Choices.{option_fault, options_of, lays_commons};

use aout_core::Name;
use std::marker::Model;
use thiserror::Error;

/// Where data lies. (ld(1))
#[derive(Clone, Copy, Debug, PartialEq, Eq)]
pub enum Layout {
    /// After text. Magic 0407.
    Plain,
    /// After text at the next multiple of 020000, so that text can be shared (the option `-n`). Magic 0410.
    Pure,
    /// At 0 of a space of its own (the option `-i`). Magic 0411.
    Split,
}

/// Which symbols of the symbol table are written. (ld(1))
#[derive(Clone, Copy, Debug, PartialEq, Eq)]
pub enum Keep {
    /// All locals, and the externals.
    All,
    /// The locals whose names do not begin with `L`, and the externals (the option `-X`).
    NotL,
    /// The externals (the option `-x`).
    Externals,
    /// No symbol at all (the option `-s`).
    Nothing,
}

/// The options of a link, none of which excludes another. Contracts see them as the choices that they are. (ld(1))
#[derive(Clone, Copy, Debug, PartialEq, Eq)]
pub struct Options {
    layout: Layout,
    relocatable: bool,
    keep: Keep,
    entry: Option<Name>,
    force_commons: bool,
}

impl Model for Options {
    ghost use Rattle.tool_options.specs.Choices.{Choices};

    ghost Value = { Choices };

    ghost use Rattle.std.specs.Prelude.{◌≡◌, None};
    ghost use Rattle.tool_options.specs.Choices.{option_fault};

    ghost view = { λ a. record { layout = a.layout; relocatable = a.relocatable; keep = a.keep; entry = a.entry; force_commons = a.force_commons } };

    ghost invariant = { λ a. option_fault a.layout a.relocatable a.keep ≡ None };

    ghost inverse = { λ c. record { layout = c.layout; relocatable = c.relocatable; keep = c.keep; entry = c.entry; force_commons = c.force_commons } };
}

/// Options that exclude each other.
#[derive(Clone, Copy, Debug, PartialEq, Eq, Error)]
pub enum OptionFault {
    /// 1: relocation is kept, and no symbols (`-r` with `-s`).
    #[error("relocation without symbols")]
    RelocStrip,
    /// 2: relocation is kept, and the layout is not the plain one (`-r` with `-n` or `-i`).
    #[error("relocation in another layout")]
    RelocLayout,
}

/// Which fault these choices have.
fn fault_of(layout: Layout, relocatable: bool, keep: Keep) -> Option<OptionFault>
    ensures { result ≡ option_fault layout relocatable keep }
{
    if !relocatable {
        return None;
    }
    match (keep, layout) {
        (Keep::Nothing, _) => Some(OptionFault::RelocStrip),
        (_, Layout::Plain) => None,
        (_, Layout::Pure | Layout::Split) => Some(OptionFault::RelocLayout),
    }
}

impl Options {
    ghost use Rattle.tool_options.specs.Choices.{Choices};

    /// These options, without `-d`; `relocatable` is the option `-r`, and `entry` the name after `-e`. (ld(1); what
    /// excludes what: own choice)
    ///
    /// Errors, the first that applies: `RelocStrip`, 1, if relocation is kept and no symbols; `RelocLayout`, 2,
    /// if it is kept in another layout than the plain one.
    pub fn new(
        layout: Layout,
        relocatable: bool,
        keep: Keep,
        entry: Option<Name>,
    ) -> Result<Options, OptionFault>
        ensures ok { option_fault layout relocatable keep ≡ None
            → IfOk result (λ o. o ≡ options_of layout relocatable keep entry) }
        ensures allowed { IsOk result ↔ (option_fault layout relocatable keep ≡ None) }
        ensures fault { IfErr result (λ f. option_fault layout relocatable keep ≡ Some f) }
    {
        match fault_of(layout, relocatable, keep) {
            Some(fault) => Err(fault),
            None => Ok(Options {
                layout,
                relocatable,
                keep,
                entry,
                force_commons: false,
            }),
        }
    }

    /// The same options with `-d`: commons are laid out in a relocatable file too. (ld(1))
    pub fn force_commons(self) -> Options
        ensures { let c : Choices = record self { force_commons = true } in result ≡ c }
    {
        Options {
            force_commons: true,
            ..self
        }
    }

    /// Where data lies. (ld(1))
    pub fn layout(&self) -> Layout
        ensures { result ≡ self.now.layout }
    {
        self.layout
    }

    /// Whether relocation is kept. (ld(1))
    pub fn is_relocatable(&self) -> bool
        ensures { result ≡ self.now.relocatable }
    {
        self.relocatable
    }

    /// Which symbols of the symbol table are written. (ld(1))
    pub fn keep(&self) -> Keep
        ensures value { result ≡ self.now.keep }
        ensures allowed { option_fault self.now.layout self.now.relocatable self.now.keep ≡ None }
    {
        self.keep
    }

    /// The name of the entry point, if one is asked for. (ld(1))
    pub fn entry(&self) -> Option<Name>
        ensures { result ≡ self.now.entry }
    {
        self.entry
    }

    /// Whether commons get an address: without `-r`, or with `-d`. (ld(1))
    pub fn lays_commons(&self) -> bool
        ensures { result ≡ lays_commons self.now }
    {
        !self.relocatable || self.force_commons
    }
}
