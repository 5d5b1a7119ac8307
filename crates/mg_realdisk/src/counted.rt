//! Errors of the system as errors of a device.

ghost use Rattle.std.specs.Prelude.{◌≡◌, Ok, IfOk};
ghost use Rattle.mg_faults.specs.Causes.{HasCause, CountsOnce, kept_count};

use mg_disk::DiskError;
use mg_faults::FaultCount;
use std::io;
use std::io::ErrorKind;

/// What the system answered, with each error counted but want of memory.
pub(crate) fn counted<T>(faults: &mut FaultCount, outcome: io::Result<T>) -> Result<T, DiskError>
    ensures value { IfOk result (λ value. outcome ≡ Ok value) }
    ensures given { IfOk outcome (λ value. result ≡ Ok value) }
    ensures cause { HasCause DiskError.Failed (kept_count faults.old) (kept_count faults.new) result }
    ensures once { CountsOnce (kept_count faults.old) (kept_count faults.new) result }
{
    match outcome {
        Ok(value) => Ok(value),
        Err(error) if error.kind() == ErrorKind::OutOfMemory => Err(DiskError::NoMemory),
        Err(_) => {
            faults.rise();
            Err(DiskError::Failed)
        }
    }
}
