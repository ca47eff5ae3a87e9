//! The list of nm.
ghost use Rattle.std.specs.Prelude.{◌≡◌, ◌≢◌, ◌↔◌, ◌++◌, ◌∷◌, [], false, if◌then◌else◌, IfErr, IfOk, IsOk, IsTrue, OnErr, OnOk, Err, filter, string_bytes};
ghost use Rattle.std.specs.List.{flat_map};
ghost use Rattle.aout_core.specs.{Refusals.{device_fault, refused}, Wires.{Puts, Writes}};
ghost use Rattle.symtools.specs.{Files.by_bytes, SymbolLines.symbol_line};
ghost use Rattle.symtools.specs.NmLists.{is_shown, name_before, value_before, in_order, arranged, line_heading, shown, nm_text, ListsUpTo};
ghost use Rattle.symtools.specs.declared.fault.ToolFault.TheVariants.{Memory, Device};

use crate::fault::ToolFault;
use crate::heading::put_heading;
use crate::symbol_line::{is_shown_undefined, line};
use aout_core::{DeviceFault, File, Symbol, Wire};
use std::alloc::{AllocError, Global};
use std::io::Write;
use tool_options::NmOptions;

/// Writes for each file, in the given order, the symbols that the options ask for, in the order that they ask for: for each
/// symbol a line as `line` writes it. With several files, a line of the file's path and `:` comes before those of its
/// symbols, unless the options want the path in each line. (nm(1))
///
/// Errors: `Memory`, 1, if memory runs out for the symbols of a file; `Device`, 2, if the device failed, in
/// this call or before it.
pub fn nm<W: Write>(
    alloc: Global,
    files: &[(String, File)],
    options: NmOptions,
    out: &mut Wire<W>,
) -> Result<(), ToolFault>
    ensures device { (result ≡ Err (Device device_fault)) ↔ IsTrue out.new.has_failed }
    ensures latched { IsTrue out.old.has_failed → (out.new ≡ out.old) }
    ensures bytes { Puts result (W.contents out.old.device) (W.contents out.new.device)
        (nm_text options (by_bytes files.now)) }
    ensures memory { result ≡ Err (Memory refused) → ListsUpTo options (by_bytes files.now)
        (W.contents out.old.device) (W.contents out.new.device) }
{
    out.working()?;
    let is_headed = !options.each_line && files.len() > 1;
    for file in files {
        list_file(alloc, file, options, is_headed, out)?;
    }
    Ok(())
}

/// Writes the lines of one file, with its path above them or not.
fn list_file<W: Write>(
    alloc: Global,
    file: &(String, File),
    options: NmOptions,
    is_headed: bool,
    out: &mut Wire<W>,
) -> Result<(), ToolFault>
    requires { out.old.has_failed ≡ false }
    ensures device { (result ≡ Err (Device device_fault)) ↔ IsTrue out.new.has_failed }
    ensures memory { result ≡ Err (Memory refused) → (out.new ≡ out.old) }
    ensures shows { result ≡ Err (Memory refused) → filter (is_shown options) file.now.1.symbols ≢ [] }
    ensures bytes { Puts result (W.contents out.old.device) (W.contents out.new.device)
        ((if is_headed then string_bytes file.now.0 ++ (58 ∷ 10 ∷ []) else [])
        ++ flat_map (λ s. line_heading options (string_bytes file.now.0) ++ symbol_line s)
        (shown options file.now.1)) }
{
    let (path, file) = file;
    let symbols = shown(alloc, file.symbols(), options)?;
    put_heading(is_headed, path, b":\n", out)?;
    put_lines(&symbols, path, options.each_line, out)?;
    Ok(())
}

fn put_lines<W: Write>(
    symbols: &[Symbol],
    path: &str,
    each_line: bool,
    out: &mut Wire<W>,
) -> Result<(), DeviceFault>
    requires { out.old.has_failed ≡ false }
    ensures { Writes W.contents result out.old out.new (flat_map
        (λ s. (if each_line then path.now ++ 58 ∷ [] else []) ++ symbol_line s) symbols.now) }
{
    for symbol in symbols {
        put_heading(each_line, path, b":", out)?;
        line(symbol, out)?;
    }
    Ok(())
}

/// The symbols of a table that the options ask for, in the order that they ask for. (nm(1))
///
/// Errors: `AllocError` if memory runs out for them.
pub fn shown(alloc: Global, table: &[Symbol], options: NmOptions) -> Result<Vec<Symbol>, AllocError>
    ensures ok { IfOk result (λ list.
        list.items ≡ arranged options (filter (is_shown options) table.now)) }
    ensures shows { OnErr result (filter (is_shown options) table.now ≢ []) }
{
    let mut list = kept(alloc, table, options)?;
    if options.table_order {
        return Ok(list);
    }
    if options.by_value {
        sort_by_value(&mut list)?;
    } else {
        sort_by_name(&mut list)?;
    }
    if options.reverse {
        list.reverse();
    }
    Ok(list)
}

fn kept(alloc: Global, table: &[Symbol], options: NmOptions) -> Result<Vec<Symbol>, AllocError>
    ensures ok { IfOk result (λ list. list.items ≡ filter (is_shown options) table.now) }
    ensures shows { OnErr result (filter (is_shown options) table.now ≢ []) }
{
    let mut list = Vec::new(alloc);
    for symbol in table {
        if is_shown(symbol, options) {
            list.push(*symbol)?;
        }
    }
    Ok(list)
}

fn is_shown(symbol: &Symbol, options: NmOptions) -> bool
    ensures { result ≡ is_shown options symbol.now }
{
    (!options.external || symbol.is_external())
        && (!options.undefined || is_shown_undefined(symbol))
}

/// Sorts by name; symbols of one name keep their order.
fn sort_by_name(list: &mut Vec<Symbol>) -> Result<(), AllocError>
    ensures sorted { OnOk result (list.new.items ≡ in_order name_before list.old.items) }
    ensures succeeds { list.old.items ≡ [] → IsOk result }
{
    list.sort_by_key(|symbol| symbol.name)
}

/// Sorts by value, and by name if values are equal; symbols of one value and name keep their order.
fn sort_by_value(list: &mut Vec<Symbol>) -> Result<(), AllocError>
    ensures sorted { OnOk result (list.new.items ≡ in_order value_before list.old.items) }
    ensures succeeds { list.old.items ≡ [] → IsOk result }
{
    list.sort_by_key(|symbol| (symbol.value, symbol.name))
}
