//! The labels of an object by their addresses.
ghost use Rattle.std.specs.Prelude.{◌≡◌, filter, IfOk};
ghost use Rattle.link_maps.specs.References.{is_function, label_before};

use aout_core::{Segment, Symbol};
use disassemblies::Names;
use instructions::Reference;
use std::alloc::{AllocError, Global};

/// Whether a symbol is that of a function, if it is one of text: an external, or a local whose name begins with `_`, as C names it.
pub fn is_function(symbol: &Symbol) -> bool
    ensures { result ≡ is_function symbol.now }
{
    symbol.is_external() || matches!(symbol.name.as_bytes(), [b'_', ..])
}

/// The functions among symbols, in the order of the table. An error: out of memory.
pub(crate) fn functions_in(alloc: Global, symbols: &[Symbol]) -> Result<Vec<Symbol>, AllocError>
    ensures { IfOk result (λ functions. functions.items ≡ filter is_function symbols.now) }
{
    let mut functions = Vec::new(alloc);
    for symbol in symbols {
        if is_function(symbol) {
            functions.push(*symbol)?;
        }
    }
    Ok(functions)
}

/// The symbols of an object and the functions among them, found by their addresses.
#[derive(Drop)]
pub(crate) struct Labels<'a> {
    pub(crate) names: Names<'a>,
    functions: Names<'a>,
    ghost are: { functions.symbols.now ≡ filter is_function names.symbols.now },
}

impl<'a> Labels<'a> {
    /// These symbols, with the functions among them. An error: out of memory.
    pub(crate) fn new(
        alloc: Global,
        symbols: &'a [Symbol],
        functions: &'a [Symbol],
    ) -> Result<Labels<'a>, AllocError>
        requires { functions.now ≡ filter is_function symbols.now }
        ensures { IfOk result (λ l. l.names.symbols.now ≡ symbols.now) }
    {
        Ok(Labels {
            names: Names::new(alloc, symbols)?,
            functions: Names::new(alloc, functions)?,
        })
    }

    /// The label before an address of a segment: the nearest at the address or before it, in text that of a function, if there is one.
    pub(crate) fn before(&self, segment: Segment, address: u16) -> Option<Reference>
        ensures { result ≡ label_before self.now.names.symbols.now segment address }
    {
        match segment {
            Segment::TextSeg => match self.functions.nearest_label(segment, address) {
                Some(function) => Some(function),
                None => self.names.nearest_label(segment, address),
            },
            Segment::DataSeg | Segment::BssSeg => self.names.nearest_label(segment, address),
            _ => None,
        }
    }
}

/// The label before an address of a segment, of those that symbols give it.
///
/// An error: out of memory.
pub fn label_before(
    alloc: Global,
    symbols: &[Symbol],
    segment: Segment,
    address: u16,
) -> Result<Option<Reference>, AllocError> {
    let functions = functions_in(alloc, symbols)?;
    let labels = Labels::new(alloc, symbols, &functions)?;
    Ok(labels.before(segment, address))
}
