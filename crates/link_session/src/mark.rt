//! What an addition overwrote.
use crate::cell::Cell;
use crate::state::State;

/// The place of a cell: the index of its word in the merged text or data, from 0.
#[derive(Clone, Copy, Debug, PartialEq, Eq)]
pub enum Place {
    InText(u16),
    InData(u16),
}

/// What an addition overwrote. A cell has at most one mark. A name has one for each change of its state: the first has
/// the state before the addition, and each later one the state that the change before it led to.
#[derive(Clone, Copy, Debug, PartialEq, Eq)]
pub enum Mark {
    /// A cell that was bound.
    CellWas(Place, Cell),
    /// The state of the external with this index.
    StateWas(u16, State),
}
