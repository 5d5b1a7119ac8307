//! Logs that grow on a volume.

ghost use Rattle.std.specs.Prelude.{◌≡◌, ◌≢◌, None, Some, IfOk, IfErr, OnOk, OnErr, IsTrue};
ghost use Rattle.mg_disk.specs.Images.{KeepsOthers, NameInDoubt, NameSet, Sets};
ghost use Rattle.mg_faults.specs.Causes.{CountsOnce, HasCause};
ghost use Rattle.mg_wal_format.specs.Recovery.{log_name};
ghost use Rattle.mg_wal.specs.Stories.{AppendKeeps, BeginKeeps};
ghost use Rattle.mg_wal.specs.Findings.{read_fault};
ghost use Rattle.mg_wal.specs.Syncs.{write_fault, Adds, IsLasting, IsUnwritten, KeepsSure};

use crate::known::log_name;
use mg_disk::{DiskError, Volume};
use mg_types::Fault;
use std::alloc::Global;

/// What a call answers where a write gave up so.
fn write_fault(error: DiskError) -> Fault
    ensures { result ≡ write_fault error }
{
    match error {
        DiskError::NoMemory => Fault::NoMemory,
        DiskError::Failed => Fault::WriteFault,
    }
}

/// What a call answers where a read gave up so.
pub(crate) fn read_fault(error: DiskError) -> Fault
    ensures { result ≡ read_fault error }
{
    match error {
        DiskError::NoMemory => Fault::NoMemory,
        DiskError::Failed => Fault::ReadFault,
    }
}

/// Puts bytes behind those of a log, in one append, and makes them lasting.
pub(crate) fn append_lasting<V: Volume>(
    alloc: Global,
    vol: &mut V,
    log: &mut V::Log,
    bytes: &[u8],
) -> Result<(), Fault>
    requires { IsTrue (V.in_writing vol.old log.old) }
    ensures added { IsTrue V.tells → OnOk result (Adds (V.log_name log.old) bytes.now (V.view vol.old).contents (V.view vol.new).contents) }
    ensures lasting { IsTrue V.tells → OnOk result (IsLasting (V.log_name log.old) (V.view vol.new)) }
    ensures elsewhere { IsTrue V.tells → KeepsOthers (V.log_name log.old) (V.view vol.old).contents (V.view vol.new).contents }
    ensures reaches { IsTrue V.tells → AppendKeeps (V.log_name log.old) bytes.now (V.view vol.old) (V.view vol.new) result }
    ensures sure { IsTrue V.tells → KeepsSure (V.view vol.old) (V.view vol.new) }
    ensures named { V.log_name log.new ≡ V.log_name log.old }
    ensures open { IsTrue (V.in_writing vol.new log.new) }
    ensures outside { IfErr result (λ fault. IsUnwritten fault) }
    ensures cause { HasCause Fault.WriteFault (V.faults vol.old) (V.faults vol.new) result }
    ensures once { CountsOnce (V.faults vol.old) (V.faults vol.new) result }
{
    vol.append(alloc, log, bytes).map_err(write_fault)?;
    vol.sync(alloc, log).map_err(write_fault)
}

/// Makes the log of this number with these bytes, in one append, and makes it lasting.
pub(crate) fn begin_log<V: Volume>(
    alloc: Global,
    vol: &mut V,
    number: u64,
    bytes: &[u8],
) -> Result<V::Log, Fault>
    requires { IsTrue V.tells → (V.view vol.old).contents (log_name number) ≡ None }
    ensures made { IsTrue V.tells → OnOk result (Sets (log_name number) (Some bytes.now) (V.view vol.old).contents (V.view vol.new).contents) }
    ensures lasting { IsTrue V.tells → OnOk result (IsLasting (log_name number) (V.view vol.new)) }
    ensures elsewhere { IsTrue V.tells → KeepsOthers (log_name number) (V.view vol.old).contents (V.view vol.new).contents }
    ensures reaches { IsTrue V.tells → BeginKeeps number bytes.now (V.view vol.old) (V.view vol.new) result }
    ensures sure { IsTrue V.tells → KeepsSure (V.view vol.old) (V.view vol.new) }
    ensures named { IfOk result (λ log. V.log_name log ≡ log_name number) }
    ensures open { IfOk result (λ log. IsTrue (V.in_writing vol.new log)) }
    ensures outside { IfErr result (λ fault. IsUnwritten fault) }
    ensures cause { HasCause Fault.WriteFault (V.faults vol.old) (V.faults vol.new) result }
    ensures once { CountsOnce (V.faults vol.old) (V.faults vol.new) result }
{
    let name = log_name(number);
    let mut log = vol.new_log(alloc, name).map_err(write_fault)?;
    append_lasting(alloc, vol, &mut log, bytes)?;
    Ok(log)
}

/// Removes the log of this number.
pub(crate) fn remove_log<V: Volume>(alloc: Global, vol: &mut V, number: u64) -> Result<(), Fault>
    ensures gone { IsTrue V.tells → OnOk result (NameSet (log_name number) None (V.view vol.old) (V.view vol.new)) }
    ensures doubt { IsTrue V.tells → OnErr result (NameInDoubt (log_name number) None (V.view vol.old) (V.view vol.new)) }
    ensures writing { (log : V.Log) → V.log_name log ≢ log_name number → V.in_writing vol.new log ≡ V.in_writing vol.old log }
    ensures outside { IfErr result (λ fault. IsUnwritten fault) }
    ensures cause { HasCause Fault.WriteFault (V.faults vol.old) (V.faults vol.new) result }
    ensures once { CountsOnce (V.faults vol.old) (V.faults vol.new) result }
{
    let name = log_name(number);
    vol.remove(alloc, name).map_err(write_fault)
}
