//! The tables of an object.
ghost use Rattle.std.specs.Prelude.{◌≡◌, ◌+◌, ◌/◌, ◌≤◌, ◌<◌, ◌^◌, length};
ghost use Rattle.gnu_objects.specs.{GnuRefusals.first_alike, internal.Sizes.IsObjectHeader};

use crate::refusal::Refusal;
use crate::symbols::GnuSymbol;
use aout_core::Header;

/// The header, strings, symbols and relocation words of an object, which symbols stay, and the first externals with names that are alike.
#[derive(Clone, Copy)]
pub(crate) struct Tables<'a> {
    pub(crate) bytes: &'a [u8],
    pub(crate) header: &'a Header,
    pub(crate) strings: &'a [u8],
    pub(crate) symbols: &'a [GnuSymbol],
    pub(crate) words: &'a [u16],
    pub(crate) flags: &'a [bool],
    pub(crate) alike: Option<Refusal>,
    ghost whole: { IsObjectHeader (length bytes.now) header.now },
    ghost few: { length symbols.now < 2 ^ 16 },
    ghost beside: { length flags.now ≡ length symbols.now },
    ghost counted: { length words.now ≡ header.now.text_size / 2 + header.now.data_size / 2 },
    ghost short: { length words.now ≤ 2 ^ 16 },
    ghost apart: { alike ≡ first_alike strings.now symbols.now },
}
