//! What C keeps between calls.
ghost use Rattle.std.specs.Prelude.{◌≢◌, IsSome};

use crate::slot::Slot;

/// What C keeps between calls. At first all of it is 0.
#[repr(C)]
#[derive(Drop)]
pub struct Handle {
    pub(crate) is_open: u32,
    pub(crate) state: Slot,
    ghost agrees: { is_open ≢ 0 → IsSome state.value },
}
