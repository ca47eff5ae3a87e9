//! The items of a file's lists: words, relocation words and symbols.
ghost use Rattle.std.specs.Prelude.{◌≡◌, ◌+◌, ◌-◌, ◌*◌, ◌≤◌, ◌++◌, ◌↔◌, ℕ, List, Option, false, IfOk, IfErr, OnOk, IsErr, IsTrue, Err, length, vec_len, vec_capacity};
ghost use Rattle.std.specs.List.{flat_map};
ghost use Rattle.std.proofs.Common.{rules};
ghost use Rattle.aout_core.specs.{declared.block.TheConstants.BLOCK_SIZE, Words.word_bytes, Decoding.symbol_in, Encoding.symbol_encoding};
ghost use Rattle.aout_core.specs.{internal.Blocks.{awaited, PutsBut}, internal.Items.{EndsAwaiting, PutsBoth, TakesAll}};
ghost use Rattle.aout_core.specs.{internal.Rows.{row_in, word_in, reloc_in, TakesItem, TakesRow}, Refusals.device_fault};

use crate::block::BLOCK_SIZE;
use crate::file::ReadFault;
use crate::incoming::Incoming;
use crate::name::Name;
use crate::outgoing::Outgoing;
use crate::reloc::Reloc;
use crate::symbol::Symbol;
use crate::wire::{DeviceFault, Wire};
use byteorder::{ByteOrder, LittleEndian};
use std::io::{Read, Write};

/// The most bytes that an item has: those of a symbol.
const MOST_WIDTH: usize = 12;

/// An item of a list in a file. All items of one type have the same number of bytes.
pub(crate) trait Item: Copy {
    ghost use Rattle.std.specs.Prelude.{◌≡◌, ◌<◌, ◌≤◌, ℕ, List, length};

    /// How many bytes an item has.
    const WIDTH: usize;

    ghost WIDTH: { ℕ };

    ghost item_in: { List ℕ → Self };

    ghost encoding: { Self → List ℕ };

    /// The item that these bytes encode.
    fn from_slice(bytes: &[u8]) -> Self
        requires { length bytes.now ≡ WIDTH }
        ensures { result ≡ item_in bytes.now };

    fn encode(&self, bytes: &mut [u8])
        requires { length bytes.old ≡ WIDTH }
        ensures { bytes.new ≡ encoding self.now };

    ghost has_bytes: { 0 < WIDTH };

    ghost is_short: { WIDTH ≤ 12 };
}

impl Item for u16 {
    const WIDTH: usize = 2;

    ghost WIDTH = { 2 };

    ghost item_in = { word_in };

    ghost encoding = { word_bytes };

    ghost has_bytes = { Prim.search rules };

    ghost is_short = { Prim.search rules };

    fn from_slice(bytes: &[u8]) -> u16 {
        LittleEndian::read_u16(bytes)
    }

    fn encode(&self, bytes: &mut [u8]) {
        LittleEndian::write_u16(bytes, *self);
    }
}

impl Item for Reloc {
    const WIDTH: usize = 2;

    ghost WIDTH = { 2 };

    ghost item_in = { reloc_in };

    ghost encoding = { λ r. word_bytes r.0 };

    ghost has_bytes = { Prim.search rules };

    ghost is_short = { Prim.search rules };

    fn from_slice(bytes: &[u8]) -> Reloc {
        Reloc(u16::from_slice(bytes))
    }

    fn encode(&self, bytes: &mut [u8]) {
        self.0.encode(bytes);
    }
}

impl Item for Symbol {
    const WIDTH: usize = 12;

    ghost WIDTH = { 12 };

    ghost item_in = { symbol_in };

    ghost encoding = { symbol_encoding };

    ghost has_bytes = { Prim.search rules };

    ghost is_short = { Prim.search rules };

    /// Bytes after a NUL in the name are left out.
    fn from_slice(bytes: &[u8]) -> Symbol {
        let mut name = [0; 8];
        name.copy_from_slice(&bytes[..8]);
        Symbol {
            name: Name::from_padded(name),
            type_bits: LittleEndian::read_u16(&bytes[8..10]),
            value: LittleEndian::read_u16(&bytes[10..]),
        }
    }

    /// The name is padded with NULs.
    fn encode(&self, bytes: &mut [u8]) {
        bytes[..8].copy_from_slice(&self.name.to_padded());
        self.type_bits.encode(&mut bytes[8..10]);
        self.value.encode(&mut bytes[10..12]);
    }
}

/// Fills in as many items as there is room for, each as the next bytes encode it.
fn fill_items<T: Item>(bytes: &[u8], items: &mut [T])
    requires { T.WIDTH * length items.old ≤ length bytes.now }
    ensures { items.new ≡ row_in T.item_in T.WIDTH (length items.old) bytes.now }
{
    for n in 0..items.len() {
        let start = T::WIDTH * n;
        items[n] = T::from_slice(&bytes[start..start + T::WIDTH]);
    }
}

/// Appends the first `count` items that the bytes encode. There is room for them.
pub(crate) fn read_items<T: Item>(bytes: &[u8], count: usize, items: &mut Vec<T>)
    requires within { T.WIDTH * count ≤ length bytes.now }
    requires reserved { vec_len items.old + count ≤ vec_capacity items.old }
    ensures items { items.new.items ≡ items.old.items ++ row_in T.item_in T.WIDTH count bytes.now }
    ensures len { vec_len items.new ≡ vec_len items.old + count }
    ensures capacity { vec_capacity items.old ≤ vec_capacity items.new }
{
    let zeros = [0; MOST_WIDTH];
    let start = items.len();
    items
        .resize(start + count, T::from_slice(&zeros[..T::WIDTH]))
        .unwrap();
    fill_items(bytes, &mut items[start..]);
}

/// Appends the items that wait whole, at most `most`, and returns how many. There is room for them.
fn take_waiting<T: Item>(most: usize, items: &mut Vec<T>, incoming: &mut Incoming) -> usize
    requires { vec_len items.old + most ≤ vec_capacity items.old }
    ensures most { result ≤ most }
    ensures value { (reader : Option (List ℕ)) → TakesRow T.item_in T.WIDTH result incoming.old
        reader incoming.new reader items.old.items items.new.items }
    ensures reserved { vec_len items.new + (most - result) ≤ vec_capacity items.new }
{
    let count = (incoming.waiting().len() / T::WIDTH).min(most);
    read_items(incoming.waiting(), count, items);
    incoming.pass(T::WIDTH * count);
    count
}

/// Takes the next item, which may lie across two blocks.
fn take_item<T: Item, R: Read>(incoming: &mut Incoming, wire: &mut Wire<R>) -> Result<T, ReadFault>
    requires works { wire.old.has_failed ≡ false }
    requires within { T.WIDTH ≤ awaited incoming.old }
    ensures device { (result ≡ Err (ReadFault.Device device_fault)) ↔ IsTrue wire.new.has_failed }
    ensures value { IfOk result (TakesItem T.item_in T.WIDTH incoming.old
        (R.remaining wire.old.device) incoming.new (R.remaining wire.new.device)) }
    ensures end { IfErr result (λ fault. EndsAwaiting fault incoming.old
        (R.remaining wire.old.device) (R.remaining wire.new.device)) }
{
    let mut buffer = [0; MOST_WIDTH];
    let bytes = &mut buffer[..T::WIDTH];
    incoming.take(bytes, wire)?;
    Ok(T::from_slice(bytes))
}

/// Reads the next `count` items, and appends them to those that are there.
pub(crate) fn take_items<T: Item, R: Read>(
    count: usize,
    items: &mut Vec<T>,
    incoming: &mut Incoming,
    wire: &mut Wire<R>,
) -> Result<(), ReadFault>
    requires works { wire.old.has_failed ≡ false }
    requires reserved { vec_len items.old + count ≤ vec_capacity items.old }
    requires within { T.WIDTH * count ≤ awaited incoming.old }
    ensures device { (result ≡ Err (ReadFault.Device device_fault)) ↔ IsTrue wire.new.has_failed }
    ensures value { OnOk result (TakesAll T.item_in T.WIDTH count R.remaining incoming.old
        wire.old.device incoming.new wire.new.device items.old items.new) }
    ensures end { IfErr result (λ fault. EndsAwaiting fault incoming.old
        (R.remaining wire.old.device) (R.remaining wire.new.device)) }
{
    let mut left = count;
    while left > 0 {
        left -= take_waiting(left, items, incoming);
        if left > 0 {
            items.push(take_item(incoming, wire)?).unwrap();
            left -= 1;
        }
    }
    Ok(())
}

/// Encodes the items, one after another.
fn encode_items<T: Item>(items: &[T], bytes: &mut [u8])
    requires { length bytes.old ≡ T.WIDTH * length items.now }
    ensures { bytes.new ≡ flat_map T.encoding items.now }
{
    let mut at = 0;
    for item in items {
        let end = at + T::WIDTH;
        item.encode(&mut bytes[at..end]);
        at = end;
    }
}

/// Writes the items that one block has room for, one after another.
fn put_few<T: Item, W: Write>(
    items: &[T],
    outgoing: &mut Outgoing,
    wire: &mut Wire<W>,
) -> Result<(), DeviceFault>
    requires works { wire.old.has_failed ≡ false }
    requires few { T.WIDTH * length items.now ≤ BLOCK_SIZE }
    ensures fault { IsErr result ↔ IsTrue wire.new.has_failed }
    ensures bytes { PutsBut result (W.contents wire.old.device) (W.contents wire.new.device)
        outgoing.new (outgoing.old ++ flat_map T.encoding items.now) }
{
    let mut block = [0; BLOCK_SIZE];
    let bytes = &mut block[..T::WIDTH * items.len()];
    encode_items(items, bytes);
    outgoing.put(bytes, wire)
}

/// Writes the items, one after another.
pub(crate) fn put_items<T: Item, W: Write>(
    items: &[T],
    outgoing: &mut Outgoing,
    wire: &mut Wire<W>,
) -> Result<(), DeviceFault>
    requires { wire.old.has_failed ≡ false }
    ensures fault { IsErr result ↔ IsTrue wire.new.has_failed }
    ensures bytes { PutsBut result (W.contents wire.old.device) (W.contents wire.new.device)
        outgoing.new (outgoing.old ++ flat_map T.encoding items.now) }
{
    for few in items.chunks(BLOCK_SIZE / T::WIDTH) {
        put_few(few, outgoing, wire)?;
    }
    Ok(())
}

/// Writes the items of one list and then those of another.
pub(crate) fn put_both<T: Item, W: Write>(
    first: &[T],
    second: &[T],
    outgoing: &mut Outgoing,
    wire: &mut Wire<W>,
) -> Result<(), DeviceFault>
    requires { wire.old.has_failed ≡ false }
    ensures fault { IsErr result ↔ IsTrue wire.new.has_failed }
    ensures bytes { PutsBoth T.encoding result
        (W.contents wire.old.device) (W.contents wire.new.device) outgoing.old outgoing.new
        first.now second.now }
{
    put_items(first, outgoing, wire)?;
    put_items(second, outgoing, wire)
}
