//! The words of the merged image.

/// A word of the merged image, bound as far as its objects allow.
///
/// In its value, what the word refers to counts as an offset in bytes from the start of the merged segment that is the
/// target. In a word that is relative to the pc its own place, too, counts from the start of its merged segment, the
/// text or the data. A word that waits for an external holds its offset from that.
#[derive(Clone, Copy, Debug, PartialEq, Eq)]
pub struct Cell {
    pub value: u16,
    pub target: Target,
    /// Whether the word is relative to the pc.
    pub pc: bool,
}

/// What a cell refers to.
#[derive(Clone, Copy, Debug, PartialEq, Eq)]
pub enum Target {
    Absolute,
    TextSeg,
    DataSeg,
    BssSeg,
    /// An external name without a definition so far, by its index: names count from 0 in the order of their first
    /// mention.
    External(u16),
}
