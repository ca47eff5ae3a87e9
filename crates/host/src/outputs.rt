//! Where a program writes.
use aout_core::Wire;

/// Where a program writes.
#[derive(Drop)]
pub struct Outputs<W, E> {
    /// Standard output.
    pub output: Wire<W>,
    /// Standard error.
    pub error: Wire<E>,
}
