ghost use Rattle.std.specs.Prelude.{◌≡◌};
ghost use Rattle.byte_lines.specs.declared.failures.Failure.TheVariants.{Device, NoMemory};

use crate::devices::DeviceFault;
use std::alloc::AllocError;
use thiserror::Error;

/// Why a call that reads or writes has stopped.
#[derive(Clone, Copy, Debug, PartialEq, Eq, Error)]
pub enum Failure {
    #[error("device failed")]
    Device,
    #[error("out of memory")]
    NoMemory,
}

impl From<DeviceFault> for Failure {
    ghost from_gives = { λ _ failure. failure ≡ Device };

    fn from(_fault: DeviceFault) -> Failure {
        Failure::Device
    }
}

impl From<AllocError> for Failure {
    ghost from_gives = { λ _ failure. failure ≡ NoMemory };

    fn from(_error: AllocError) -> Failure {
        Failure::NoMemory
    }
}
