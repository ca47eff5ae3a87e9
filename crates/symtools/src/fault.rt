//! Why not all lines went out.
ghost use Rattle.std.specs.Prelude.{◌≡◌};
ghost use Rattle.aout_core.specs.Refusals.{device_fault, refused};
ghost use Rattle.symtools.specs.declared.fault.ToolFault.TheVariants.{Memory, Device};

use aout_core::{DeviceFault, Refused};
use std::alloc::{AllocError, AllocFailed};
use thiserror::Error;

/// Why not all lines went out.
#[derive(Clone, Copy, Debug, PartialEq, Eq, Error)]
pub enum ToolFault {
    /// 1: memory runs out for the symbols of a file that are shown.
    #[error("no memory")]
    Memory(Refused),
    /// 2: the device failed, in this call or before it.
    #[error("write error")]
    Device(DeviceFault),
}

impl From<DeviceFault> for ToolFault {
    ghost from_gives = { λ _ e. e ≡ Device device_fault };

    fn from(fault: DeviceFault) -> ToolFault {
        ToolFault::Device(fault)
    }
}

impl From<AllocError> for ToolFault {
    ghost from_gives = { λ _ e. e ≡ Memory refused };

    fn from(error: AllocError) -> ToolFault {
        ToolFault::Memory(Refused::from(error))
    }
}

impl<T: Drop> From<AllocFailed<T>> for ToolFault {
    ghost from_gives = { λ _ e. e ≡ Memory refused };

    fn from(error: AllocFailed<T>) -> ToolFault {
        ToolFault::Memory(Refused::from(error))
    }
}
