//! Why a call of a device gave up.

ghost use Rattle.std.specs.Prelude.{◌≡◌};
ghost use Rattle.mg_disk.specs.declared.errors.DiskError.TheVariants.{NoMemory};

use std::alloc::{AllocError, AllocFailed};
use thiserror::Error;

/// Why a call of a device gave up.
#[derive(Clone, Copy, Debug, PartialEq, Eq, Error)]
pub enum DiskError {
    /// Memory ran out.
    #[error("out of memory")]
    NoMemory,
    /// The device failed, and its count of faults has risen.
    #[error("the device failed")]
    Failed,
}

impl From<AllocError> for DiskError {
    ghost from_gives = { λ _ e. e ≡ NoMemory };

    fn from(_: AllocError) -> Self {
        DiskError::NoMemory
    }
}

impl<T: Drop> From<AllocFailed<T>> for DiskError {
    ghost from_gives = { λ _ e. e ≡ NoMemory };

    fn from(_: AllocFailed<T>) -> Self {
        DiskError::NoMemory
    }
}
