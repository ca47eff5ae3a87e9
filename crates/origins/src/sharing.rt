//! A table of moves and addresses that objects share. Slots 0 to 2 are the moves of one object, and slot `3 + n` is the address of name n.
ghost use Rattle.std.specs.Prelude.{◌≡◌, ◌↔◌, ◌≤◌, ◌+◌, ◌<◌, IsTrue, length};
ghost use Rattle.origins.specs.Telling.{address_given, AreDefined, HasSlots, IsDataAt, IsDefinedAt, IsTextAt, Tells};

use crate::placing;
use crate::telling::tell;
use aout_core::{File, Object, Segment, Symbol};

/// Whether a table has a slot for each move and for each name, by their numbers.
pub fn has_slots(table: &[Option<u16>], names: &[u16]) -> bool
    ensures { IsTrue result ↔ HasSlots names.now table.now }
{
    table.len() >= 3 && names.iter().all(|name| 3 + (*name as usize) < table.len())
}

/// The file of an object, which has a relocation word for each word.
fn file_of(object: &Object) -> &File
    ensures value { result.now ≡ object.now }
    ensures text { length object.now.text_reloc ≡ length object.now.text_words }
    ensures datas { length object.now.data_reloc ≡ length object.now.data_words }
{
    let file = object.file();
    let header = file.header();
    prove!(header.flag == 0);
    file
}

/// Whether an object's text may be at an even address of the program's, by the table. Its move and the addresses that its words show are
/// entered; after `false` too, some may be.
pub fn tell_text(
    table: &mut [Option<u16>],
    names: &[u16],
    program: &File,
    object: &Object,
    text: u16,
) -> bool
    requires { HasSlots names.now table.old }
    ensures { Tells table.old (IsTextAt program.now object.now names.now text) result table.new }
{
    placing::tell_text(table, names, program, file_of(object), text)
}

/// Whether an object's data may be at an even byte of the program's, by the table. Its move and the addresses that its words show are
/// entered; after `false` too, some may be.
pub fn tell_data(
    table: &mut [Option<u16>],
    names: &[u16],
    program: &File,
    object: &Object,
    place: u16,
) -> bool
    requires { HasSlots names.now table.old }
    ensures { Tells table.old (IsDataAt program.now object.now names.now place) result table.new }
{
    placing::tell_data(table, names, program, file_of(object), place as usize)
}

/// The address of a symbol that an object defines, if the moves of text, data and bss tell it.
fn address_given(moves: &[Option<u16>], symbol: &Symbol) -> Option<u16>
    requires { length moves.now ≡ 3 }
    ensures { result ≡ address_given moves.now symbol.now }
{
    let own = match symbol.segment() {
        Segment::Absolute => Some(0),
        Segment::TextSeg => moves[0],
        Segment::DataSeg => moves[1],
        Segment::BssSeg => moves[2],
        Segment::Undefined | Segment::Other => None,
    };
    own.map(|own| symbol.value.wrapping_add(own))
}

/// Whether the address of a symbol agrees with the table, if the symbol is external and its segment's move is known; it is entered.
fn tell_symbol(table: &mut [Option<u16>], name: u16, moves: &[Option<u16>], symbol: &Symbol) -> bool
    requires slot { 3 + name < length table.old }
    requires moves { length moves.now ≡ 3 }
    ensures { Tells table.old (IsDefinedAt moves.now name symbol.now) result table.new }
{
    if !symbol.is_external() {
        return true;
    }
    match address_given(moves, symbol) {
        Some(address) => tell(table, Some(3 + name as usize), address),
        None => true,
    }
}

/// Whether the addresses of the externals that an object defines agree with the table, by the moves that the table has; they are entered.
/// After `false` too, some may be.
pub fn tell_defined(table: &mut [Option<u16>], names: &[u16], symbols: &[Symbol]) -> bool
    requires slots { HasSlots names.now table.old }
    requires numbers { length symbols.now ≤ length names.now }
    ensures { Tells table.old (AreDefined table.old names.now symbols.now) result table.new }
{
    let moves = [table[0], table[1], table[2]];
    for i in 0..symbols.len() {
        if !tell_symbol(table, names[i], &moves, &symbols[i]) {
            return false;
        }
    }
    true
}
