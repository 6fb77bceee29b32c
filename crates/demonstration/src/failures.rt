ghost use Rattle.std.specs.Prelude.{◌≡◌, Some, None, codes, OnOk, IsErrOf};
ghost use Rattle.byte_lines.specs.Exits.{exit_words};
ghost use Rattle.demonstration.specs.Failures.{failure_of};
ghost use Rattle.demonstration.specs.declared.failures.DemoFailure.TheVariants.{NoMemory};

use byte_lines::{Exit, Failure};
use std::alloc::AllocError;
use thiserror::Error;

/// Why a demonstration ended without its text.
#[derive(Clone, Copy, Debug, PartialEq, Eq, Error)]
pub enum DemoFailure {
    #[error("usage")]
    Usage,
    #[error("device failed")]
    Device,
    #[error("out of memory")]
    NoMemory,
}

impl From<Failure> for DemoFailure {
    ghost from_gives = { λ failure given. given ≡ failure_of failure };

    fn from(failure: Failure) -> DemoFailure {
        match failure {
            Failure::Device => DemoFailure::Device,
            Failure::NoMemory => DemoFailure::NoMemory,
        }
    }
}

impl From<AllocError> for DemoFailure {
    ghost from_gives = { λ _ given. given ≡ NoMemory };

    fn from(_error: AllocError) -> DemoFailure {
        DemoFailure::NoMemory
    }
}

pub fn exit_of(end: Result<(), DemoFailure>) -> Exit
    ensures done { OnOk end ((result.status ≡ 0) × (result.words ≡ None)) }
    ensures usage { IsErrOf end DemoFailure.Usage → (result.status ≡ 2) × (exit_words result ≡ Some (codes "usage")) }
    ensures device { IsErrOf end DemoFailure.Device → (result.status ≡ 1) × (exit_words result ≡ Some (codes "device failed")) }
    ensures memory { IsErrOf end DemoFailure.NoMemory → (result.status ≡ 1) × (exit_words result ≡ Some (codes "out of memory")) }
{
    match end {
        Ok(()) => Exit {
            status: 0,
            words: None,
        },
        Err(DemoFailure::Usage) => Exit {
            status: 2,
            words: Some("usage"),
        },
        Err(DemoFailure::Device) => Exit {
            status: 1,
            words: Some("device failed"),
        },
        Err(DemoFailure::NoMemory) => Exit {
            status: 1,
            words: Some("out of memory"),
        },
    }
}
