//! The opening of a volume that may have a shared log.

ghost use Rattle.std.specs.Prelude.{◌≡◌, ◌≤◌, ◌⊎◌, [], length, None, IfOk, IfErr, IsTrue};
ghost use Rattle.mg_disk.specs.Images.{Settled};
ghost use Rattle.mg_disk.specs.Moments.{LeavesOnly};
ghost use Rattle.mg_faults.specs.Causes.{raised, CountsOnce, Rose};
ghost use Rattle.mg_types.specs.declared.faults.Fault.TheVariants.{NoMemory, ReadFault, WriteFault};
ghost use Rattle.mg_wal_format.specs.Recovery.{Clears, IsLess, IsRefused};
ghost use Rattle.mg_wal.specs.Findings.{IsRefusalBy};
ghost use Rattle.mg_wal.specs.Lists.{Books};
ghost use Rattle.mg_wal.specs.Openings.{basis_for, OpensAs};
ghost use Rattle.mg_wal.specs.States.{book_of, ledger_book, opened_basis, volume_of};
ghost use Rattle.mg_wal.specs.Stories.{Reaches};
ghost use Rattle.mg_wal.specs.Strays.{OpensWithStray};

use crate::reading::{Opened, read_volume};
use crate::state::WalState;
use crate::strays::remove_strays;
use mg_disk::Volume;
use mg_types::Fault;
use mg_wal_format::Rec;
use std::alloc::Global;

/// Why a volume did not open, with the volume.
#[derive(Debug, Drop)]
pub struct RecoverError<V> {
    /// NoMemory, ReadFault, WriteFault, or what is wrong with the logs: FewerParts, Damaged or Malformed.
    pub fault: Fault,
    /// The volume. At most strays are gone from it, so it opens as before.
    pub vol: V,
}

/// Opens a volume for so many partitions: the state, the records that its logs have, and for each partition how many changes it
/// had before the first of them. Logs that do not begin with the whole frame of their own number are removed, once all others are
/// judged. A volume without a log opens with none, and no log is made. Logs are read one after the other, in pieces of 64 KiB or of
/// one frame, whichever is more.
pub fn recover<V: Volume>(
    alloc: Global,
    mut vol: V,
    parts: u16,
) -> Result<(WalState<V>, Vec<Rec>, Vec<u64>), RecoverError<V>>
    requires { IsTrue V.tells → Settled (V.view vol) (V.in_writing vol) }
    ensures parts { IfOk result (λ found. length found.2.items ≡ parts) }
    ensures fresh { IfOk result (λ found. ((book_of found.0).staged ≡ None) × ((book_of found.0).writing ≡ None) × ((book_of found.0).released ≡ found.2.items)) }
    ensures stands { IfOk result (λ found. Books (basis_for (book_of found.0) found.1.items found.2.items) [] (book_of found.0)) }
    ensures opens { IsTrue V.tells → IfOk result (λ found.
        OpensAs (V.view vol).contents (basis_for (book_of found.0) found.1.items found.2.items) (book_of found.0)) }
    ensures since { IsTrue V.tells → IfOk result (λ found. Reaches (basis_for (book_of found.0) found.1.items found.2.items) []
        (V.view vol).moment (book_of found.0).reach (book_of found.0) (V.view (volume_of found.0))) }
    ensures cleared { IsTrue V.tells → IfOk result (λ found. Clears (V.view vol).contents (V.view (volume_of found.0)).contents) }
    ensures kinds { IfErr result (λ e. (e.fault ≡ NoMemory) ⊎ (e.fault ≡ ReadFault) ⊎ (e.fault ≡ WriteFault) ⊎ IsRefusalBy parts e.fault) }
    ensures refused { IsTrue V.tells → IfErr result (λ e. IsRefusalBy parts e.fault → IsRefused parts (V.view vol).contents e.fault) }
    ensures untouched { IsTrue V.tells → IfErr result (λ e. IsRefusalBy parts e.fault ⊎ (e.fault ≡ ReadFault)
        → LeavesOnly (V.view vol) (V.view e.vol) (λ image. image ≡ (V.view vol).contents)) }
    ensures back { IsTrue V.tells → IfErr result (λ e. LeavesOnly (V.view vol) (V.view e.vol) (IsLess (V.view vol).contents)) }
    ensures wrote { IsTrue V.tells → IfErr result (λ e. e.fault ≡ WriteFault → OpensWithStray parts (V.view vol).contents) }
    ensures left { IsTrue V.tells → IfOk result (λ found. LeavesOnly (V.view vol) (V.view (volume_of found.0)) (IsLess (V.view vol).contents)) }
    ensures kept { IfOk result (λ found. V.faults (volume_of found.0) ≡ V.faults vol) }
    ensures once { IfErr result (λ e. V.faults e.vol ≤ raised (V.faults vol) 1) }
    ensures cause { IfErr result (λ e. (V.faults vol ≤ V.faults e.vol)
        × ((e.fault ≡ ReadFault) ⊎ (e.fault ≡ WriteFault) → Rose (V.faults vol) (V.faults e.vol))) }
{
    match open(alloc, &mut vol, parts) {
        Ok(
            Opened {
                ledger,
                records,
                low,
            },
        ) => {
            let state = WalState {
                vol,
                ledger,
                log: None,
            };
            Ok((state, records, low))
        }
        Err(fault) => Err(RecoverError { fault, vol }),
    }
}

/// Reads the logs of a volume, and removes those that do not count.
fn open<V: Volume>(alloc: Global, vol: &mut V, parts: u16) -> Result<Opened, Fault>
    requires { IsTrue V.tells → Settled (V.view vol.old) (V.in_writing vol.old) }
    ensures parts { IfOk result (λ opened. length opened.low.items ≡ parts) }
    ensures stands { IfOk result (λ opened. Books (opened_basis opened) [] (ledger_book opened.ledger)) }
    ensures writing { IfOk result (λ opened. opened.ledger.writing ≡ None) }
    ensures staged { IfOk result (λ opened. opened.ledger.staged ≡ None) }
    ensures released { IfOk result (λ opened. opened.ledger.released.items ≡ opened.low.items) }
    ensures opens { IsTrue V.tells → IfOk result (λ opened. OpensAs (V.view vol.old).contents (opened_basis opened) (ledger_book opened.ledger)) }
    ensures since { IsTrue V.tells → IfOk result (λ opened. Reaches (opened_basis opened) [] (V.view vol.old).moment
        opened.ledger.reach (ledger_book opened.ledger) (V.view vol.new)) }
    ensures cleared { IsTrue V.tells → IfOk result (λ opened. Clears (V.view vol.old).contents (V.view vol.new).contents) }
    ensures kinds { IfErr result (λ fault. (fault ≡ NoMemory) ⊎ (fault ≡ ReadFault) ⊎ (fault ≡ WriteFault) ⊎ IsRefusalBy parts fault) }
    ensures refused { IsTrue V.tells → IfErr result (λ fault. IsRefusalBy parts fault → IsRefused parts (V.view vol.old).contents fault) }
    ensures untouched { IsTrue V.tells → IfErr result (λ fault. IsRefusalBy parts fault ⊎ (fault ≡ ReadFault)
        → LeavesOnly (V.view vol.old) (V.view vol.new) (λ image. image ≡ (V.view vol.old).contents)) }
    ensures wrote { IsTrue V.tells → IfErr result (λ fault. fault ≡ WriteFault → OpensWithStray parts (V.view vol.old).contents) }
    ensures back { IsTrue V.tells → LeavesOnly (V.view vol.old) (V.view vol.new) (IsLess (V.view vol.old).contents) }
    ensures later { V.faults vol.old ≤ V.faults vol.new }
    ensures once { CountsOnce (V.faults vol.old) (V.faults vol.new) result }
    ensures cause { IfErr result (λ fault. (fault ≡ ReadFault) ⊎ (fault ≡ WriteFault) → Rose (V.faults vol.old) (V.faults vol.new)) }
{
    let (opened, strays) = read_volume(alloc, vol, parts)?;
    remove_strays(alloc, vol, &strays)?;
    Ok(opened)
}
