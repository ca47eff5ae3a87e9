//! The uses of names: the symbols that define a name or want it, and the words that lead to it.
ghost use Rattle.std.specs.Prelude.{◌≡◌, ◌++◌, map, slice_get, Some, IfOk, OnOk};
ghost use Rattle.disassemblies.specs.Starts.{starts};
ghost use Rattle.instructions.specs.declared.unix.Decoder.TheVariants.{Unix};
ghost use Rattle.symtools.specs.NmLists.{in_order};
ghost use Rattle.link_session.specs.Labelled.{objects};
ghost use Rattle.link_maps.specs.Uses.{forced_use, is_before, use_by, uses_from, uses_in, uses_in_order};

use crate::labels::functions_in;
use crate::members::Listed;
use crate::references::{LinedFile, ReferringWord};
use aout_core::{File, Name, Symbol};
use std::alloc::{AllocError, Global};
use std::marker::Model;

/// The type word of a symbol that is external and undefined. (a.out(5))
const UNDEFINED_EXTERNAL: u16 = 0o40;

/// A use of a name: a symbol of an object, the words of the object that lead to it, and those that lead beyond it and not to another label.
#[derive(Debug, Drop)]
pub struct Use {
    /// The object, counted from 0; none for a forced name.
    pub object: Option<usize>,
    pub symbol: Symbol,
    /// In the order of their places, text before data, as are the words that may reach what the symbol names.
    pub references: Vec<ReferringWord>,
    pub near: Vec<ReferringWord>,
}

impl Model for Use {
    ghost use Rattle.link_maps.specs.Uses as spec;

    ghost Value = { spec.Use };

    ghost view = { λ a. record { object = a.object; symbol = a.symbol; references = a.references.items; near = a.near.items } };
}

/// The use of a forced name: a plain mention.
fn forced_use(alloc: Global, name: Name) -> Use
    ensures { result ≡ forced_use name }
{
    Use {
        object: None,
        symbol: Symbol {
            name,
            type_bits: UNDEFINED_EXTERNAL,
            value: 0,
        },
        references: Vec::new(alloc),
        near: Vec::new(alloc),
    }
}

fn put_forced(alloc: Global, uses: &mut Vec<Use>, names: &[Name]) -> Result<(), AllocError>
    ensures { OnOk result (uses.new.items ≡ uses.old.items ++ map forced_use names.now) }
{
    for name in names {
        uses.push(forced_use(alloc, *name))?;
    }
    Ok(())
}

/// Appends the use by the symbol with a number, if that is external.
fn put_use(
    alloc: Global,
    uses: &mut Vec<Use>,
    object: usize,
    lined: &LinedFile<'_>,
    number: usize,
    symbol: &Symbol,
) -> Result<(), AllocError>
    requires { slice_get lined.now.symbols number ≡ Some symbol.now }
    ensures { OnOk result (uses.new.items ≡ uses.old.items
        ++ use_by object (starts Unix lined.now) lined.now number symbol.now) }
{
    if !symbol.is_external() {
        return Ok(());
    }
    uses.push(Use {
        object: Some(object),
        symbol: *symbol,
        references: lined.references_to(alloc, number, symbol)?,
        near: lined.near_to(alloc, number, symbol)?,
    })?;
    Ok(())
}

fn put_uses(
    alloc: Global,
    uses: &mut Vec<Use>,
    object: usize,
    file: &File,
) -> Result<(), AllocError>
    ensures { OnOk result (uses.new.items ≡ uses.old.items ++ uses_in object file.now) }
{
    let functions = functions_in(alloc, file.symbols())?;
    let lined = LinedFile::new(alloc, file, &functions)?;
    for (number, symbol) in file.symbols().iter().enumerate() {
        put_use(alloc, uses, object, &lined, number, symbol)?;
    }
    Ok(())
}

fn put_objects(alloc: Global, uses: &mut Vec<Use>, all: &[Listed<'_>]) -> Result<(), AllocError>
    ensures { OnOk result (uses.new.items ≡ uses.old.items ++ uses_from 0 (objects all.now)) }
{
    for (object, listed) in all.iter().enumerate() {
        put_uses(alloc, uses, object, listed.file)?;
    }
    Ok(())
}

/// Sorts by name; uses of one name keep their order.
fn sort_by_name(uses: &mut Vec<Use>) -> Result<(), AllocError>
    ensures { OnOk result (uses.new.items ≡ in_order is_before uses.old.items) }
{
    uses.sort_by_key(|used| used.symbol.name)
}

/// The uses of forced names and of the names in objects, in the order of the names. An error: out of memory.
pub(crate) fn uses_of(
    alloc: Global,
    forced: &[Name],
    all: &[Listed<'_>],
) -> Result<Vec<Use>, AllocError>
    ensures { IfOk result (λ uses. uses.items ≡ uses_in_order forced.now (objects all.now)) }
{
    let mut uses = Vec::new(alloc);
    put_forced(alloc, &mut uses, forced)?;
    put_objects(alloc, &mut uses, all)?;
    sort_by_name(&mut uses)?;
    Ok(uses)
}
