//! Names that are found by their first eight bytes. Two names are alike if they differ, and are equal in these bytes.
ghost use Rattle.std.specs.Prelude.{◌≡◌, ◌≤◌, ◌<◌, ◌^◌, IfOk, OnOk, length};
ghost use Rattle.aout_core.specs.Names.{before_nul};
ghost use Rattle.gnu_objects.specs.{internal.AlikeNames.{found, PutsName, PutsSymbol, FindsAlike}, Staying.alike_with};

use crate::names::name_at;
use crate::staying::counts;
use crate::symbols::GnuSymbol;
use aout_core::Name;
use indexmap::IndexMap;
use std::alloc::{AllocError, Global};

/// Names that are equal in eight bytes.
#[derive(Drop)]
pub(crate) struct Equals {
    /// The name that was put in last.
    name: Vec<u8>,
    /// Its number.
    number: u16,
    /// The number of the last one that differs from it.
    other: Option<u16>,
}

/// Names with their numbers, by their first eight bytes.
pub(crate) type AlikeNames = IndexMap<Name, Equals>;

/// The number of the name that was put in last of those that are alike with this one.
pub(crate) fn found(names: &AlikeNames, name: &[u8]) -> Option<u16>
    requires { before_nul name.now ≡ name.now }
    ensures { result ≡ found names.now name.now }
{
    let equals = names.get(&Name::from_bytes(name))?;
    if equals.name.as_slice() == name {
        equals.other
    } else {
        Some(equals.number)
    }
}

/// Puts in a name, which is then found before those that are there.
pub(crate) fn put_name(names: &mut AlikeNames, name: &[u8], number: u16) -> Result<(), AllocError>
    requires { before_nul name.now ≡ name.now }
    ensures { OnOk result (PutsName name.now number names.old names.new) }
{
    let mut copy = Vec::new(*names.allocator());
    copy.extend_from_slice(name)?;
    let equals = Equals {
        name: copy,
        number,
        other: found(names, name),
    };
    names.insert(Name::from_bytes(name), equals)?;
    Ok(())
}

/// Puts in the name of a symbol, if it counts.
fn put_symbol(
    names: &mut AlikeNames,
    strings: &[u8],
    externals: bool,
    n: u16,
    symbol: &GnuSymbol,
) -> Result<(), AllocError>
    ensures { OnOk result (PutsSymbol strings.now externals n symbol.now names.old names.new) }
{
    if counts(strings, externals, symbol) {
        put_name(names, name_at(strings, symbol.place), n)?;
    }
    Ok(())
}

/// The symbols of a file, of which those whose names count are found by them: externals alone, or all that are not for a debugger.
#[derive(Drop)]
pub(crate) struct NamedSymbols<'a> {
    pub(crate) strings: &'a [u8],
    pub(crate) externals: bool,
    pub(crate) symbols: &'a [GnuSymbol],
    names: AlikeNames,
    ghost finds: { FindsAlike strings.now externals 0 symbols.now names },
}

impl<'a> NamedSymbols<'a> {
    /// The symbols with their names in these strings.
    pub(crate) fn new(
        alloc: Global,
        strings: &'a [u8],
        externals: bool,
        symbols: &'a [GnuSymbol],
    ) -> Result<NamedSymbols<'a>, AllocError>
        requires { length symbols.now < 2 ^ 16 }
        ensures strings { IfOk result (λ n. n.strings.now ≡ strings.now) }
        ensures externals { IfOk result (λ n. n.externals ≡ externals) }
        ensures symbols { IfOk result (λ n. n.symbols.now ≡ symbols.now) }
    {
        let mut names = IndexMap::new(alloc);
        let mut n = symbols.len();
        while n > 0 {
            n -= 1;
            put_symbol(&mut names, strings, externals, n as u16, &symbols[n])?;
        }
        Ok(NamedSymbols {
            strings,
            externals,
            symbols,
            names,
        })
    }

    /// The number of the first symbol whose name counts, and is alike with this one.
    pub(crate) fn alike_with(&self, name: &[u8]) -> Option<u16>
        requires { before_nul name.now ≡ name.now }
        ensures { result
            ≡ alike_with self.now.strings.now self.now.externals name.now 0 self.now.symbols.now }
    {
        found(&self.names, name)
    }
}
