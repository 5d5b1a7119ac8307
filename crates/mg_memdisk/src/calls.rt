//! Calls that are counted, and fail by number.

ghost use Rattle.std.specs.Prelude.{◌≡◌, ◌↔◌, IsErrOf, IsTrue};
ghost use Rattle.mg_faults.specs.Calls.{next_fails, after_call};
ghost use Rattle.mg_faults.specs.Causes.{HasCause, CountsOnce, kept_count};

use mg_disk::DiskError;
use mg_faults::CallCounter;

/// Counts a call. It is `Failed` where its number is listed, and else Ok.
pub fn count_call(calls: &mut CallCounter) -> Result<(), DiskError>
    ensures counted { calls.new ≡ after_call calls.old }
    ensures fails { IsErrOf result DiskError.Failed ↔ IsTrue (next_fails calls.old) }
    ensures memory { IsErrOf result DiskError.NoMemory → ⊥ }
    ensures cause { HasCause DiskError.Failed (kept_count calls.old.faults) (kept_count calls.new.faults) result }
    ensures once { CountsOnce (kept_count calls.old.faults) (kept_count calls.new.faults) result }
{
    if calls.count() {
        return Err(DiskError::Failed);
    }
    Ok(())
}
