//! Names of several files that a linker would take for one.
ghost use Rattle.std.specs.{Prelude.{◌≡◌, ◌++◌, [], map, OnOk, IfOk, IfSome}, Option.is_some, List.{flat_map, list_any}};
ghost use Rattle.gnu_objects.specs.{Clashes.{alike_after, clashes_of, clashing, externals_in, externals_of, names_of}, Staying.are_alike};
ghost use Rattle.gnu_objects.specs.internal.Externals.{HasNames, names_in};

use crate::alike::{AlikeNames, found, put_name};
use crate::external::External;
use crate::names::{are_alike, name_at};
use crate::staying::counts;
use crate::symbols::GnuSymbol;
use crate::whole::{strings_of, symbols_of, whole_header};
use indexmap::IndexMap;
use std::alloc::{AllocError, Global};

/// Two externals whose names differ, and are equal in their first eight bytes: one, and an earlier one.
#[derive(Clone, Copy)]
pub struct Clash<'a> {
    /// The number of the file that has the first, counted from 0.
    pub first_file: usize,
    /// The whole name of the first.
    pub first: &'a [u8],
    /// The number of the file that has the second.
    pub second_file: usize,
    /// The whole name of the second.
    pub second: &'a [u8],
}

/// Adds the externals among these symbols of a file.
fn push_externals<'a>(
    all: &mut Vec<External<'a>>,
    file: usize,
    strings: &'a [u8],
    symbols: &[GnuSymbol],
) -> Result<(), AllocError>
    ensures { OnOk result (names_in all.new.items
        ≡ names_in all.old.items ++ externals_in strings.now symbols.now) }
{
    for symbol in symbols {
        if counts(strings, true, symbol) {
            let name = name_at(strings, symbol.place);
            all.push(External { file, name })?;
        }
    }
    Ok(())
}

/// Adds the externals of a file. One that is refused for its header, its sizes or its strings has none.
fn push_file<'a>(
    all: &mut Vec<External<'a>>,
    file: usize,
    bytes: &'a [u8],
) -> Result<(), AllocError>
    ensures { OnOk result (names_in all.new.items ≡ names_in all.old.items ++ externals_of bytes.now) }
{
    match whole_header(bytes) {
        Ok(header) => {
            let symbols = symbols_of(*all.allocator(), bytes, &header)?;
            push_externals(all, file, strings_of(bytes, &header), &symbols)
        }
        Err(_) => Ok(()),
    }
}

fn all_externals<'a>(alloc: Global, files: &[&'a [u8]]) -> Result<Vec<External<'a>>, AllocError>
    ensures { IfOk result (λ all.
        names_in all.items ≡ flat_map externals_of (map (λ f. f.now) files.now)) }
{
    let mut all = Vec::new(alloc);
    for (file, bytes) in files.iter().enumerate() {
        push_file(&mut all, file, bytes)?;
    }
    Ok(all)
}

/// The clash of an external with the first of these whose name is alike with its own.
fn clash_with<'a>(before: &[External<'a>], external: &External<'a>) -> Option<Clash<'a>>
    ensures name { IfSome result (λ clash. clash.second.now ≡ external.now.name.now) }
    ensures found { is_some result ≡ list_any (are_alike external.now.name.now) (names_in before.now) }
{
    for first in before {
        if are_alike(external.name, first.name) {
            return Some(Clash {
                first_file: first.file,
                first: first.name,
                second_file: external.file,
                second: external.name,
            });
        }
    }
    None
}

/// Adds the clash of an external with one before it, if it has one. The names before it are put in.
fn push_clash<'a>(
    clashes: &mut Vec<Clash<'a>>,
    names: &AlikeNames,
    before: &[External<'a>],
    external: &External<'a>,
) -> Result<(), AllocError>
    requires { HasNames (names_in before.now) names.now }
    ensures { OnOk result (names_of clashes.new.items
        ≡ names_of clashes.old.items ++ clashing (names_in before.now) external.now.name.now) }
{
    if found(names, external.name).is_none() {
        return Ok(());
    }
    match clash_with(before, external) {
        Some(clash) => clashes.push(clash)?,
        None => {}
    }
    Ok(())
}

/// The clashes of these externals, each with the first one before it whose name is alike.
fn clashes_in<'a>(alloc: Global, all: &[External<'a>]) -> Result<Vec<Clash<'a>>, AllocError>
    ensures { IfOk result (λ clashes. names_of clashes.items ≡ alike_after [] (names_in all.now)) }
{
    let mut names = IndexMap::new(alloc);
    let mut clashes = Vec::new(alloc);
    for (n, external) in all.iter().enumerate() {
        push_clash(&mut clashes, &names, &all[..n], external)?;
        put_name(&mut names, external.name, 0)?;
    }
    Ok(clashes)
}

/// The externals of these files whose names differ from that of an earlier one, and are equal to it in their first eight bytes, since
/// a link would take these for one name. A file that `convert` refuses for its header, its sizes or its strings has no externals here.
/// The time grows with the files, and for each clash with the externals before it.
///
/// Errors: `AllocError` if memory runs out.
pub fn clashes_among<'a>(alloc: Global, files: &[&'a [u8]]) -> Result<Vec<Clash<'a>>, AllocError>
    ensures { IfOk result (λ clashes. names_of clashes.items ≡ clashes_of (map (λ f. f.now) files.now)) }
{
    let all = all_externals(alloc, files)?;
    clashes_in(alloc, &all)
}
