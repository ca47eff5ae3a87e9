//! Objects in GNU's form.
ghost use Rattle.std.specs.Prelude.{◌≡◌, ◌≢◌, Ok, Err, IfOk, IfErr};
ghost use Rattle.aout_core.specs.Refusals.{refused};
ghost use Rattle.gnu_objects.specs.{Converted.converted, GnuRefusals.sizes_refusal};
ghost use Rattle.link_out.specs.Steps.{refused_as};
ghost use Rattle.libv7.specs.GnuAnswers.{ConversionMayRunOut, conversion_in, converted_in, refused_in};
ghost use Rattle.libv7.specs.declared.cause.Cause.TheVariants.{Memory};

use crate::cause::{Cause, Refusal};
use crate::encoding::bytes_of;
use crate::requests::has_bit;
use aout_core::Object;
use gnu_objects::{Locals, Options, convert, place_of};
use std::alloc::Global;

/// What a conversion leaves out, by its bits.
fn conversion_in(bits: u32) -> Result<Options, Cause>
    ensures { result ≡ conversion_in bits }
{
    if bits > 7 {
        return Err(Cause::NoOption);
    }
    let drops_debugger = has_bit(bits, 1);
    let locals = if has_bit(bits, 4) {
        Locals::KeepNone
    } else if has_bit(bits, 2) {
        Locals::KeepNeeded
    } else {
        Locals::KeepAll
    };
    Ok(Options {
        drops_debugger,
        locals,
    })
}

/// The object that one in GNU's form becomes.
fn convert_at(alloc: Global, options: Options, bytes: &[u8]) -> Result<Object, Refusal>
    ensures ok { IfOk result (λ object. converted options bytes.now ≡ Ok object) }
    ensures err { IfErr result (λ r. r.cause ≢ Memory refused
        → refused_as (refused_in bytes.now) (converted options bytes.now) ≡ Err r) }
    ensures memory { IfErr result (λ r.
        r.cause ≡ Memory refused → (r.place ≡ 0) × (sizes_refusal bytes.now ≡ None)) }
{
    match convert(alloc, bytes, options) {
        Ok(object) => Ok(object),
        Err(gnu_objects::Refusal::Memory(refused)) => Err(Refusal::from(refused)),
        Err(refusal) => Err(Refusal {
            cause: Cause::NotConverted(refusal),
            place: place_of(bytes, refusal),
        }),
    }
}

/// The bytes of the object that one in GNU's form becomes, by the rules of v7-from-gnu(1). The options are bits: 1 for `-S`, 2 `-X`, 4
/// `-x`, which wins over `-X`. (binutils, pdp11-aout)
///
/// Errors, the first that applies: `NoOption`, 1, if a bit is not an option. `NotConverted`, with the byte of the file as the place: 11 to
/// 14 for the header and the sizes, 81 for the strings, 82 to 85 for a symbol, and 86 for a linked program. Then 42 for too many symbols,
/// 87 for two names, and 88, 89 and 21 to 24 for a word. `Memory`, 50, comes if memory runs out, but never in place of 1, 11 to 14 and 81.
pub fn from_gnu(alloc: Global, options: u32, bytes: &[u8]) -> Result<Vec<u8>, Refusal>
    ensures ok { IfOk result (λ written. converted_in options bytes.now ≡ Ok written.items) }
    ensures err { IfErr result (λ r. r.cause ≢ Memory refused → converted_in options bytes.now ≡ Err r) }
    ensures memory { IfErr result (λ r.
        r.cause ≡ Memory refused → ConversionMayRunOut options bytes.now r.place) }
{
    let choices = conversion_in(options)?;
    let object = convert_at(alloc, choices, bytes)?;
    Ok(bytes_of(alloc, object.file())?)
}
