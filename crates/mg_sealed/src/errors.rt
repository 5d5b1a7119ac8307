//! Faults of devices as faults of calls.

ghost use Rattle.std.specs.Prelude.{◌≡◌};
ghost use Rattle.mg_sealed.specs.Answers.{read_fault, write_fault};

use mg_disk::DiskError;
use mg_types::{Fault, FileId};

/// What a call answers where a read gave up so.
pub(crate) fn read_fault(error: DiskError) -> Fault
    ensures { result ≡ read_fault error }
{
    match error {
        DiskError::NoMemory => Fault::NoMemory,
        DiskError::Failed => Fault::ReadFault,
    }
}

/// What a call answers where a write gave up so.
pub(crate) fn write_fault(error: DiskError) -> Fault
    ensures { result ≡ write_fault error }
{
    match error {
        DiskError::NoMemory => Fault::NoMemory,
        DiskError::Failed => Fault::WriteFault,
    }
}

/// The fault of what stands at an offset of a file and is outside its grammar or its order.
pub fn malformed(file: FileId, at: u64) -> Fault
    ensures { result ≡ Fault.Malformed file at }
{
    Fault::Malformed { file, at }
}

/// The fault of two numbers that a file keeps at an offset, and that don't agree.
pub fn damaged(file: FileId, at: u64, kept: u64, found: u64) -> Fault
    ensures { result ≡ Fault.Damaged file at kept found }
{
    Fault::Damaged {
        file,
        at,
        kept,
        found,
    }
}
