//! What is asked of a link.
ghost use Rattle.std.specs.Prelude.{◌≡◌, ◌≢◌, ◌<◌, IfErr};
ghost use Rattle.aout_core.specs.Refusals.{refused};
ghost use Rattle.libv7.specs.declared.cause.Cause.TheVariants.{Memory};
ghost use Rattle.libv7.specs.{FileAnswers.{has_bit, nm_options_in}, LinkRequests.{choices_in, entry_of, flags_in, forced_in}};

use crate::cause::{Cause, Refusal};
use crate::parts::ObjectBytes;
use aout_core::Name;
use link_session::Forced;
use symtools::NmOptions;
use tool_options::{Flags, Options};

/// What is asked of a link. (ld(1); the bits: own choice)
#[repr(C)]
#[derive(Clone, Copy)]
pub struct Request<'a> {
    /// The size of the caller's struct in bytes.
    pub size: usize,
    /// The options, a bit each: 1 for `-r`, 2 `-s`, 4 `-x`, 8 `-X`, 16 `-n`, 32 `-i`, 64 `-d`.
    pub options: u32,
    /// What is wanted besides the file: 1 the report as lines, 2 as a list, 4 the objects of what the list has, 8 the map; or several.
    pub wants: u32,
    /// The name of the entry point, at most 8 bytes; none if it is empty.
    pub entry: &'a [u8],
    /// The forced names, 8 bytes each, filled up with NULs.
    pub forced: &'a [u8],
    pub objects: &'a [ObjectBytes<'a>],
}

/// Whether the bit of value `place` is 1.
pub(crate) fn has_bit(bits: u32, place: u32) -> bool
    requires { 0 < place }
    ensures { result ≡ has_bit bits place }
{
    bits / place % 2 == 1
}

/// The flags of a link, by their bits.
fn flags_in(bits: u32) -> Flags
    ensures { result ≡ flags_in bits }
{
    Flags {
        relocatable: has_bit(bits, 1),
        strip: has_bit(bits, 2),
        externals: has_bit(bits, 4),
        not_l: has_bit(bits, 8),
        pure: has_bit(bits, 16),
        split: has_bit(bits, 32),
        commons: has_bit(bits, 64),
    }
}

/// The name of the entry point, if there are bytes of one.
fn entry(bytes: &[u8]) -> Option<Name>
    ensures { result ≡ entry_of bytes.now }
{
    if bytes.is_empty() {
        None
    } else {
        Some(Name::from_bytes(bytes))
    }
}

/// The options of a link, by their bits and the name of the entry point.
pub(crate) fn tool_options(bits: u32, entry_name: &[u8]) -> Result<Options, Cause>
    ensures { result ≡ choices_in bits entry_name.now }
{
    if bits > 127 {
        return Err(Cause::NoOption);
    }
    let Some(options) = flags_in(bits).options(entry(entry_name)) else {
        return Err(Cause::Excluded);
    };
    if entry_name.len() > 8 {
        return Err(Cause::LongName);
    }
    Ok(options)
}

/// The forced names, of eight bytes each.
pub(crate) fn forced_names(bytes: &[u8]) -> Result<Forced, Refusal>
    ensures value { result ≡ forced_in bytes.now }
    ensures memory { IfErr result (λ r. r.cause ≢ Memory refused) }
{
    if bytes.len() % 8 != 0 {
        return Err(Refusal {
            cause: Cause::CutNames,
            place: 0,
        });
    }
    let mut forced = Forced::none();
    let mut rest = bytes;
    for i in 0..bytes.len() / 8 {
        let (slot, after) = rest.split_at(8);
        if !forced.push(Name::from_bytes(slot)) {
            return Err(Refusal {
                cause: Cause::ManyNames,
                place: i,
            });
        }
        rest = after;
    }
    Ok(forced)
}

/// The options of nm, by their bits.
pub(crate) fn nm_options(bits: u32) -> Result<NmOptions, Cause>
    ensures { result ≡ nm_options_in bits }
{
    if bits > 31 {
        return Err(Cause::NoOption);
    }
    Ok(NmOptions {
        external: has_bit(bits, 1),
        by_value: has_bit(bits, 2),
        each_line: false,
        table_order: has_bit(bits, 4),
        reverse: has_bit(bits, 8),
        undefined: has_bit(bits, 16),
    })
}
