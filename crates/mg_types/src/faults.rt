//! The faults that a call can answer, and what they name.

ghost use Rattle.mg_types.specs.declared.faults.Fault.TheVariants.{NoMemory};
ghost use Rattle.std.specs.Prelude.{◌≡◌};

use crate::names::FileId;
use std::alloc::{AllocError, AllocFailed};
use thiserror::Error;

/// What is wrong with a line of a script.
#[derive(Clone, Copy, Debug, PartialEq, Eq)]
pub enum Why {
    /// The last line has no line feed.
    Ending,
    Client,
    Verb,
    Part,
    Key,
    Doc,
    Number,
    /// A field too many.
    Extra,
}

/// Why a call has no other answer. `Display` gives each variant a short text for logs; what the program prints is spelled by
/// the crate `mg_script`.
#[derive(Clone, Copy, Debug, PartialEq, Eq, Error)]
pub enum Fault {
    #[error("no memory")]
    NoMemory,
    #[error("a read failed")]
    ReadFault,
    #[error("a write failed")]
    WriteFault,
    /// Two numbers that a file keeps must agree or be in range, and don't or aren't.
    #[error("damaged: kept {kept}, found {found}")]
    Damaged {
        file: FileId,
        at: u64,
        kept: u64,
        found: u64,
    },
    /// The newest manifest names a file that is not there.
    #[error("a file is missing")]
    Missing {
        file: FileId,
    },
    /// The shared log cannot give the changes that a partition needs next.
    #[error("the shared log has changes {low} to {high}, and {applied} are applied")]
    Gap {
        part: u16,
        applied: u64,
        low: u64,
        high: u64,
    },
    /// The first line outside the script's grammar, counted from 1.
    #[error("line {line} of the script is outside the grammar")]
    BadLine {
        line: u64,
        why: Why,
    },
    #[error("the input has more than {limit} bytes")]
    TooLong {
        limit: u64,
    },
    #[error("bad words")]
    BadWords,
    /// The rule of the settings that is broken.
    #[error("the settings break rule {at}")]
    BadSettings {
        at: u8,
    },
    #[error("{asked} partitions were asked for, and {kept} are kept")]
    FewerParts {
        asked: u16,
        kept: u16,
    },
    /// A frame that is whole, with a body that its grammar or its order doesn't allow.
    #[error("malformed at {at}")]
    Malformed {
        file: FileId,
        at: u64,
    },
    /// A number has reached its limit.
    #[error("a number has reached its limit, {kept}")]
    Worn {
        kept: u64,
    },
}

impl From<AllocError> for Fault {
    ghost from_gives = { λ _ fault. fault ≡ NoMemory };

    fn from(_error: AllocError) -> Fault {
        Fault::NoMemory
    }
}

impl<T: Drop> From<AllocFailed<T>> for Fault {
    ghost from_gives = { λ _ fault. fault ≡ NoMemory };

    fn from(_error: AllocFailed<T>) -> Fault {
        Fault::NoMemory
    }
}
