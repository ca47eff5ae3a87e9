//! What there is to say of names that are cut, and of locals that go because of their names. Only tested.
use crate::alike::NamedSymbols;
use crate::names::{is_stab, name_at};
use crate::options::Locals;
use crate::refusal::Refusal;
use crate::staying::{is_chosen, is_external};
use crate::whole::{relocation_of, strings_of, symbols_of, whole_header};
use std::alloc::Global;

/// What there is to say of a symbol that is converted.
#[derive(Clone, Copy)]
pub enum Remark<'a> {
    /// An external has this name of more than eight bytes.
    Cut(&'a [u8]),
    /// The first is the name of a local that does not stay, since it is equal in eight bytes to the second.
    Dropped(&'a [u8], &'a [u8]),
}

/// What there is to say of the symbols of an object in GNU's form that is converted with these locals, in their order:
/// each external whose name is cut, and each local that goes only because of its name.
///
/// Errors: `ShortHeader`, 1, `BadMagic`, 2, `OddSize`, 3, `Truncated`, 4, and `BadStrings`, 5, as `convert` says; and
/// `Memory`, 16, if memory runs out.
pub fn remarks(alloc: Global, bytes: &[u8], locals: Locals) -> Result<Vec<Remark<'_>>, Refusal> {
    let header = whole_header(bytes)?;
    let strings = strings_of(bytes, &header);
    let symbols = symbols_of(alloc, bytes, &header)?;
    let words = relocation_of(alloc, bytes, &header)?;
    let named = NamedSymbols::new(alloc, strings, false, &symbols)?;
    let mut remarks = Vec::new(alloc);
    for (n, symbol) in symbols.iter().enumerate() {
        let name = name_at(strings, symbol.place);
        if is_stab(strings, symbol) {
            continue;
        }
        if is_external(symbol) {
            if name.len() > 8 {
                remarks.push(Remark::Cut(name))?;
            }
        } else if is_chosen(locals, &words, n as u16)
            && let Some(other) = named.alike_with(name)
            && let Some(other) = symbols.get(usize::from(other))
        {
            remarks.push(Remark::Dropped(name, name_at(strings, other.place)))?;
        }
    }
    Ok(remarks)
}
