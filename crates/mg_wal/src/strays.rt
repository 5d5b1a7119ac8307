//! The removal of logs that do not count.

ghost use Rattle.std.specs.Prelude.{◌≡◌, ◌≤◌, length, IfErr, OnOk, IsTrue};
ghost use Rattle.mg_faults.specs.Causes.{CountsOnce, HasCause};
ghost use Rattle.mg_wal.specs.Strays.{AreStrays, KeepsEachReach, KeepsLess, Removes};
ghost use Rattle.mg_wal.specs.Syncs.{IsUnwritten};

use crate::devices::remove_log;
use mg_disk::Volume;
use mg_types::Fault;
use std::alloc::Global;

/// Removes these logs, none of which begins with the whole frame of its own number. After an error some of them may be gone.
pub(crate) fn remove_strays<V: Volume>(
    alloc: Global,
    vol: &mut V,
    strays: &[u64],
) -> Result<(), Fault>
    requires { IsTrue V.tells → AreStrays (V.view vol.old).contents strays.now }
    ensures gone { IsTrue V.tells → OnOk result (Removes strays.now (V.view vol.old).contents (V.view vol.new).contents) }
    ensures reaches { IsTrue V.tells → KeepsEachReach (V.view vol.old) (V.view vol.new) }
    ensures less { IsTrue V.tells → KeepsLess (V.view vol.old) (V.view vol.new) }
    ensures some { IfErr result (λ _. 1 ≤ length strays.now) }
    ensures outside { IfErr result (λ fault. IsUnwritten fault) }
    ensures cause { HasCause Fault.WriteFault (V.faults vol.old) (V.faults vol.new) result }
    ensures once { CountsOnce (V.faults vol.old) (V.faults vol.new) result }
{
    for number in strays {
        remove_log(alloc, vol, *number)?;
    }
    Ok(())
}
