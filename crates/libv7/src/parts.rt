//! An object by its parts.
use aout_core::Header;

/// A word of text or data, and its relocation word. (a.out(5))
#[repr(C)]
#[derive(Clone, Copy, Debug, PartialEq, Eq)]
pub struct ObjectWord {
    pub value: u16,
    /// What the word refers to.
    pub reloc: u16,
}

/// A symbol, its name in eight bytes. (a.out(5))
#[repr(C)]
#[derive(Clone, Copy, Debug, PartialEq, Eq)]
pub struct SymbolRow {
    /// The name, filled up with NULs; what follows a NUL is not looked at.
    pub name: [u8; 8],
    /// The type word.
    pub type_bits: u16,
    /// The value, by the type word.
    pub value: u16,
}

/// The bytes of a file that begin with an object.
#[repr(C)]
#[derive(Clone, Copy)]
pub struct ObjectBytes<'a> {
    pub bytes: &'a [u8],
}

/// What an object is made of. (a.out(5))
#[derive(Clone, Copy)]
pub struct ObjectParts<'a> {
    pub text: &'a [ObjectWord],
    pub data: &'a [ObjectWord],
    /// The size of bss in bytes.
    pub bss: u32,
    pub symbols: &'a [SymbolRow],
}

/// What an object was made of. (a.out(5))
#[derive(Debug, Drop)]
pub struct PartLists {
    pub text: Vec<ObjectWord>,
    pub data: Vec<ObjectWord>,
    /// The size of bss in bytes.
    pub bss: u16,
    pub symbols: Vec<SymbolRow>,
}

/// What a file holds. (a.out(5))
#[derive(Debug, Drop)]
pub struct FileLists {
    pub header: Header,
    pub parts: PartLists,
}
