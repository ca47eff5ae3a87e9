//! The flags of ld, and the options that they ask for.
ghost use Rattle.std.specs.Prelude.{◌≡◌};
ghost use Rattle.tool_options.specs.Flags.{choices_of, keep_of, layout_of};

use crate::options::{Keep, Layout, Options};
use aout_core::Name;

/// Which flags of a link are given. (ld(1))
#[derive(Clone, Copy, Debug, PartialEq, Eq)]
pub struct Flags {
    /// `-r`: relocation is kept, so that the file can be linked again.
    pub relocatable: bool,
    /// `-s`: no symbol is kept.
    pub strip: bool,
    /// `-x`: no local is kept.
    pub externals: bool,
    /// `-X`: no local is kept whose name begins with `L`.
    pub not_l: bool,
    /// `-n`: data begins at a multiple of 020000, so that text can be shared.
    pub pure: bool,
    /// `-i`: data has a space of its own.
    pub split: bool,
    /// `-d`: commons are laid out in a relocatable file too.
    pub commons: bool,
}

impl Flags {
    /// Where data lies: `-n` and `-i` exclude each other.
    fn layout(&self) -> Option<Layout>
        ensures { result ≡ layout_of self.now }
    {
        match (self.pure, self.split) {
            (false, false) => Some(Layout::Plain),
            (true, false) => Some(Layout::Pure),
            (false, true) => Some(Layout::Split),
            (true, true) => None,
        }
    }

    /// Which symbols are kept: `-s` wins over `-x`, and that over `-X`.
    fn keep(&self) -> Keep
        ensures { result ≡ keep_of self.now }
    {
        if self.strip {
            Keep::Nothing
        } else if self.externals {
            Keep::Externals
        } else if self.not_l {
            Keep::NotL
        } else {
            Keep::All
        }
    }

    /// The options that these flags ask for; `entry` is the name after `-e`. `-s` wins over `-x`, and `-x` over `-X`.
    /// `None` if two flags exclude each other: `-n` and `-i`, or `-r` and one of `-s`, `-n` and `-i`. (ld(1); what excludes
    /// what: own choice)
    pub fn options(&self, entry: Option<Name>) -> Option<Options>
        ensures { result ≡ choices_of self.now entry }
    {
        let options = Options::new(self.layout()?, self.relocatable, self.keep(), entry).ok()?;
        if self.commons {
            Some(options.force_commons())
        } else {
            Some(options)
        }
    }
}
