//! Why a read or a write has no other answer.

use std::alloc::{AllocError, AllocFailed};
use thiserror::Error;

/// Why a read or a write has no other answer.
#[derive(Clone, Copy, Debug, PartialEq, Eq, Error)]
pub enum IoError {
    #[error("no memory")]
    NoMemory,
    /// The source or sink failed, and its count of faults rose.
    #[error("the source or sink failed")]
    Failed,
}

impl From<AllocError> for IoError {
    ghost use Rattle.std.specs.Prelude.{◌≡◌};
    ghost use Rattle.mg_io.specs.declared.errors.IoError.TheVariants.{NoMemory};

    ghost from_gives = { λ _ error. error ≡ NoMemory };

    fn from(_error: AllocError) -> IoError {
        IoError::NoMemory
    }
}

impl<T: Drop> From<AllocFailed<T>> for IoError {
    ghost use Rattle.std.specs.Prelude.{◌≡◌};
    ghost use Rattle.mg_io.specs.declared.errors.IoError.TheVariants.{NoMemory};

    ghost from_gives = { λ _ error. error ≡ NoMemory };

    fn from(_error: AllocFailed<T>) -> IoError {
        IoError::NoMemory
    }
}
