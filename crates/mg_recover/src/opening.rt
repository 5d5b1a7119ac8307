//! The opening of a store.

ghost use Rattle.std.specs.Prelude.{◌≡◌, ◌<◌, ◌≤◌, ◌^◌, ◌⊎◌, [], ℕ, length, IfOk, IfErr, IsTrue, MatchOption};
ghost use Rattle.mg_disk.specs.Images.{Image, Settled};
ghost use Rattle.mg_disk.specs.Moments.{LeavesOnly};
ghost use Rattle.mg_faults.specs.Causes.{raised, Rose};
ghost use Rattle.mg_recover.specs.Cuts.{IsOpened};
ghost use Rattle.mg_recover.specs.Openings.{AreWhole, IsGapOf};
ghost use Rattle.mg_recover.specs.Refusals.{IsStoreRefusal, IsStoreRefused};
ghost use Rattle.mg_recover.specs.Stores.{log_book, log_volume, part_at, partitions_of, Stands};
ghost use Rattle.mg_types.specs.declared.faults.Fault.TheVariants.{NoMemory, ReadFault, WriteFault};
ghost use Rattle.mg_wal.specs.Book.{parts_in};
ghost use Rattle.mg_wal.specs.Lists.{Basis, Books};
ghost use Rattle.mg_wal.specs.Openings.{basis_for, IsFound, OpensAs};
ghost use Rattle.mg_wal.specs.States.{book_of};
ghost use Rattle.mg_wal.specs.Stories.{Reaches};
ghost use Rattle.mg_wal.specs.Strays.{OpensWithStray};
ghost use Rattle.mg_wal_format.specs.Recovery.{IsLess};

use crate::partition::Partition;
use crate::replay::replay;
use crate::store::Store;
use mg_disk::Volume;
use mg_model::Fault;
use mg_wal::{RecoverError, WalState, recover};
use mg_wal_format::Rec;
use std::alloc::Global;

/// Opens the store of so many partitions on the volume of their shared log: the log is recovered, and the changes of its records
/// are made, from empty lists on.
///
/// Beside what `recover` answers, `Gap` names the first partition of which the logs have not all changes, `Malformed` the first
/// record whose change its partition does not allow, and `Worn` the number that one would raise past its limit.
pub fn open<V: Volume>(alloc: Global, vol: V, parts: u16) -> Result<Store<V>, RecoverError<V>>
    requires { IsTrue V.tells → Settled (V.view vol) (V.in_writing vol) }
    ensures parts { IfOk result (λ store. parts_in (log_book store) ≡ parts) }
    ensures stands { IfOk result (λ store. (basis : Basis) × Stands basis [] (log_book store) (partitions_of store)
        × (IsTrue V.tells → IsFound (V.view vol).contents basis
        × Reaches basis [] (V.view vol).moment basis.reached (log_book store) (V.view (log_volume store)))
        × ((log_book store).newest ≡ basis.newest)) }
    ensures opened { IsTrue V.tells → IfOk result (λ store. IsOpened parts (V.view vol).contents (λ part. (part_at (partitions_of store) part).plain)) }
    ensures kinds { IfErr result (λ e. (e.fault ≡ NoMemory) ⊎ (e.fault ≡ ReadFault) ⊎ (e.fault ≡ WriteFault) ⊎ IsStoreRefusal parts e.fault) }
    ensures refused { IsTrue V.tells → IfErr result (λ e. IsStoreRefusal parts e.fault → IsStoreRefused parts (V.view vol).contents e.fault) }
    ensures wrote { IsTrue V.tells → IfErr result (λ e. e.fault ≡ WriteFault → OpensWithStray parts (V.view vol).contents) }
    ensures back { IsTrue V.tells → IfErr result (λ e. LeavesOnly (V.view vol) (V.view e.vol) (IsLess (V.view vol).contents)) }
    ensures left { IsTrue V.tells → IfOk result (λ store. LeavesOnly (V.view vol) (V.view (log_volume store)) (IsLess (V.view vol).contents)) }
    ensures kept { IfOk result (λ store. V.faults (log_volume store) ≡ V.faults vol) }
    ensures once { IfErr result (λ e. V.faults e.vol ≤ raised (V.faults vol) 1) }
    ensures cause { IfErr result (λ e. (V.faults vol ≤ V.faults e.vol)
        × ((e.fault ≡ ReadFault) ⊎ (e.fault ≡ WriteFault) → Rose (V.faults vol) (V.faults e.vol))) }
{
    let (log, records, low) = recover(alloc, vol, parts)?;
    match made(alloc, &log, &records, &low) {
        Ok(partitions) => Ok(Store { log, partitions }),
        Err(fault) => Err(RecoverError {
            fault,
            vol: log.into_volume(),
        }),
    }
}

/// The partitions that the log's records make, where the log has all changes.
fn made<V: Volume>(
    alloc: Global,
    log: &WalState<V>,
    records: &[Rec],
    low: &[u64],
) -> Result<Vec<Partition>, Fault>
    requires few { length low.now < 2 ^ 16 }
    requires books { Books (basis_for (book_of log.now) records.now low.now) [] (book_of log.now) }
    requires released { (book_of log.now).released ≡ low.now }
    ensures parts { IfOk result (λ partitions. length partitions.items ≡ length low.now) }
    ensures stands { IfOk result (λ partitions. Stands (basis_for (book_of log.now) records.now low.now) [] (book_of log.now) partitions.items) }
    ensures opened { (image : Image) → OpensAs image (basis_for (book_of log.now) records.now low.now) (book_of log.now)
        → IfOk result (λ partitions. IsOpened (length low.now) image (λ part. (part_at partitions.items part).plain)) }
    ensures kinds { IfErr result (λ f. (f ≡ NoMemory) ⊎ IsStoreRefusal (length low.now) f) }
    ensures refused { (image : Image) → OpensAs image (basis_for (book_of log.now) records.now low.now) (book_of log.now)
        → IfErr result (λ f. (f ≡ NoMemory) ⊎ IsStoreRefused (length low.now) image f) }
{
    match find_gap(log, low) {
        Some(gap) => Err(gap),
        None => replay(alloc, log.logs(), records, low.len() as u16),
    }
}

/// That the log has not all changes of a partition, of the first such.
fn find_gap<V: Volume>(log: &WalState<V>, low: &[u64]) -> Option<Fault>
    requires few { length low.now < 2 ^ 16 }
    requires counted { length low.now ≡ parts_in (book_of log.now) }
    ensures { MatchOption result (AreWhole low.now) (λ f. IsGapOf low.now (book_of log.now) f) }
{
    let part = low.iter().position(|before| *before > 0)?;
    Some(Fault::Gap {
        part: part as u16,
        applied: 0,
        low: low[part],
        high: log.changes(part as u16),
    })
}
