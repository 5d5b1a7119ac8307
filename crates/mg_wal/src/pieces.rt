//! Pieces of a log.

ghost use Rattle.std.specs.Prelude.{◌≡◌, ◌≤◌, ◌⊎◌, length, take, drop, IfOk, IfErr, IfSome, IsSome, IsTrue};
ghost use Rattle.mg_disk.specs.Images.{Stays};
ghost use Rattle.mg_faults.specs.Causes.{CountsOnce, HasCause};
ghost use Rattle.mg_types.specs.Names.{IsLogName};

use crate::devices::read_fault;
use mg_disk::{Name, Volume};
use mg_types::Fault;
use std::alloc::Global;

/// So many bytes of the log under a name, from that offset on; fewer where the log ends before. The room for all is taken first.
pub(crate) fn read_piece<V: Volume>(
    alloc: Global,
    vol: &mut V,
    name: Name,
    at: u64,
    count: usize,
) -> Result<Vec<u8>, Fault>
    requires kind { IsLogName name }
    requires there { IsTrue V.tells → IsSome ((V.view vol.old).contents name) }
    ensures bytes { IsTrue V.tells → IfOk result (λ piece. IfSome ((V.view vol.old).contents name) (λ bytes. piece.items ≡ take count (drop at bytes))) }
    ensures bound { IfOk result (λ piece. length piece.items ≤ count) }
    ensures stays { IsTrue V.tells → Stays (V.view vol.old) (V.view vol.new) }
    ensures kinds { IfErr result (λ fault. (fault ≡ Fault.NoMemory) ⊎ (fault ≡ Fault.ReadFault)) }
    ensures cause { HasCause Fault.ReadFault (V.faults vol.old) (V.faults vol.new) result }
    ensures once { CountsOnce (V.faults vol.old) (V.faults vol.new) result }
{
    let mut piece = vec![in alloc; 0u8; count]?;
    let read = vol
        .read_log(alloc, name, at, &mut piece)
        .map_err(read_fault)?;
    piece.truncate(read);
    Ok(piece)
}
