//! The state of the shared log.

ghost use Rattle.std.specs.Prelude.{◌≡◌, ℕ, ◌<◌, None, IsTrue, is_some};
ghost use Rattle.std.specs.Option.{ForSome};
ghost use Rattle.mg_wal_format.specs.Recovery.{log_name};

use crate::devices::{append_lasting, begin_log, remove_log};
use crate::known::KnownLog;
use crate::ledger::Ledger;
use crate::receipt::Receipt;
use mg_disk::Volume;
use mg_model::Change;
use mg_types::Fault;
use std::alloc::Global;

/// A log of so many bytes, 16 MiB, is not appended to.
const LOG_LIMIT: u64 = 1 << 24;

/// The one list of changes of all partitions, and the volume that keeps it.
///
/// A change comes into the list in two steps: `reserve` spells its record in memory, which can fail, and `push` gives it its
/// place in the list, which cannot.
#[derive(Drop)]
pub struct WalState<V: Volume> {
    pub(crate) vol: V,
    pub(crate) ledger: Ledger,
    // the newest log, where the next sync may append to it
    pub(crate) log: Option<V::Log>,
    ghost open: { ForSome log (λ log. IsTrue (V.in_writing vol log)) },
    ghost named: { ForSome log (λ log. V.log_name log ≡ log_name ledger.newest) },
    ghost counted: { is_some log ≡ is_some ledger.writing },
    ghost none_above: { IsTrue V.tells → (number : ℕ) → ledger.newest < number → (V.view vol).contents (log_name number) ≡ None },
}

impl<V: Volume> WalState<V> {
    ghost use Rattle.std.specs.Prelude.{◌+◌, ◌*◌, ◌≤◌, ◌^◌, ◌⊎◌, length, Some, IfSome, IsSome, IfOk, IfErr, OnOk, OnErr, IsOk};
    ghost use Rattle.mg_faults.specs.Causes.{CountsOnce, HasCause};
    ghost use Rattle.mg_disk.specs.Images.{KeepsOthers};
    ghost use Rattle.mg_types.specs.declared.faults.Fault.TheVariants.{NoMemory};
    ghost use Rattle.mg_wal_format.specs.Records.{mark_of};
    ghost use Rattle.mg_wal.specs.Book.{after_push, after_reserve, changes_of, parts_in, staged_of, Entry, HasRoom, HasUnsynced, IsWorn};
    ghost use Rattle.mg_wal.specs.Lists.{IsNextOf, KeepsBooks, KeepsBooksWith};
    ghost use Rattle.mg_wal.specs.Releases.{after_release, behind_first, FirstMayGo, IsCut, OnlyLogsGo};
    ghost use Rattle.mg_wal.specs.States.{book_of, volume_of};
    ghost use Rattle.mg_wal.specs.Stories.{ExtendKeeps, KeepsReach, KeepsReachWith};
    ghost use Rattle.mg_wal.specs.Syncs.{after_sync, begun_in, len_for, number_for, synced_in, written_in, Adds, BeginsLog, IsFailedSync, IsFailedWrite, IsLasting, IsUnwritten, KeepsSure, Writes};

    /// The number of the last record of the list; 0 where it has none.
    pub fn last(&self) -> u64
        ensures { result ≡ (book_of self.now).last }
    {
        self.ledger.last
    }

    /// How many changes the partition has had.
    pub fn changes(&self, part: u16) -> u64
        requires { part < parts_in (book_of self.now) }
        ensures { result ≡ changes_of (book_of self.now) part }
    {
        self.ledger.counts[usize::from(part)]
    }

    /// The logs that a crash may leave, in the order of their numbers.
    pub fn logs(&self) -> &[KnownLog]
        ensures { result.now ≡ (book_of self.now).logs }
    {
        &self.ledger.logs
    }

    /// Spells a change of the partition as the next record, behind those that wait in memory and in place of one that was
    /// reserved and not pushed. The change is copied once. A record whose number, or whose number among the changes of its
    /// partition, no file may keep is refused as worn. After an error all is as before.
    pub fn reserve(&mut self, part: u16, what: &Change) -> Result<(), Fault>
        requires part { part < parts_in (book_of self.old) }
        requires mark { IfSome (mark_of what.now) (λ mark. mark < 2 ^ 62) }
        ensures staged { OnOk result (book_of self.new ≡ after_reserve (part, what.now) (book_of self.old)) }
        ensures room { OnOk result (HasRoom (book_of self.old) part) }
        ensures next { OnOk result (IsNextOf (book_of self.old) (part, what.now)) }
        ensures err { IfErr result (λ fault. (fault ≡ NoMemory) ⊎ IsWorn (book_of self.old) part fault) }
        ensures same { OnErr result (book_of self.new ≡ book_of self.old) }
        ensures volume { volume_of self.new ≡ volume_of self.old }
        ensures keeps { KeepsBooks (book_of self.old) (book_of self.new) }
        ensures reaches { IsTrue V.tells → KeepsReach (book_of self.old) (book_of self.new) (V.view (volume_of self.old)) (V.view (volume_of self.new)) }
    {
        self.ledger.reserve(part, what)
    }

    /// Gives the record that was reserved its place in the list, and answers its number. Takes no memory, and touches no device.
    pub fn push(&mut self) -> u64
        requires { IsSome (book_of self.old).staged }
        ensures number { result ≡ (book_of self.old).last + 1 }
        ensures book { (e : Entry) → (book_of self.old).staged ≡ Some (staged_of (book_of self.old) e)
            → book_of self.new ≡ after_push e (book_of self.old) }
        ensures parts { parts_in (book_of self.new) ≡ parts_in (book_of self.old) }
        ensures volume { volume_of self.new ≡ volume_of self.old }
        ensures keeps { (e : Entry) → (book_of self.old).staged ≡ Some (staged_of (book_of self.old) e)
            → IsNextOf (book_of self.old) e → KeepsBooksWith e (book_of self.old) (book_of self.new) }
        ensures reaches { IsTrue V.tells → (e : Entry) → (book_of self.old).staged ≡ Some (staged_of (book_of self.old) e) → IsNextOf (book_of self.old) e
            → KeepsReachWith e (book_of self.old) (book_of self.new) (V.view (volume_of self.old)) (V.view (volume_of self.new)) }
    {
        self.ledger.push()
    }

    /// All records that were pushed and are not synced are put behind the newest log, or into a new one, in one append, and
    /// made lasting. The receipt is of this partition. A log that was found, that a call failed on or that has 16 MiB or more
    /// is not appended to. Touches no device where nothing is unsynced. After an error nothing of the list is lost: the next
    /// call repeats what is unsynced. What each crash left before of a log, a crash at any moment of the call leaves too.
    pub fn sync(&mut self, alloc: Global, part: u16) -> Result<Receipt, Fault>
        requires { part < parts_in (book_of self.old) }
        ensures receipt { IfOk result (λ receipt. (receipt.through ≡ (book_of self.old).last) × (receipt.part ≡ part)
            × (receipt.change ≡ changes_of (book_of self.old) part)) }
        ensures book { OnOk result (book_of self.new ≡ after_sync (book_of self.old)) }
        ensures room { OnOk result (HasUnsynced (book_of self.old) → number_for (book_of self.old) < 2 ^ 62) }
        ensures idle { (HasUnsynced (book_of self.old) → ⊥) → IsOk result × (volume_of self.new ≡ volume_of self.old) }
        ensures written { IsTrue V.tells → OnOk result (HasUnsynced (book_of self.old)
            → Writes (book_of self.old) (V.view (volume_of self.old)).contents (V.view (volume_of self.new)).contents) }
        ensures lasting { IsTrue V.tells → OnOk result (HasUnsynced (book_of self.old)
            → IsLasting (log_name (number_for (book_of self.old))) (V.view (volume_of self.new))) }
        ensures elsewhere { IsTrue V.tells → KeepsOthers (log_name (number_for (book_of self.old)))
            (V.view (volume_of self.old)).contents (V.view (volume_of self.new)).contents }
        ensures reaches { IsTrue V.tells → KeepsReach (book_of self.old) (book_of self.new) (V.view (volume_of self.old)) (V.view (volume_of self.new)) }
        ensures sure { IsTrue V.tells → KeepsSure (V.view (volume_of self.old)) (V.view (volume_of self.new)) }
        ensures parts { parts_in (book_of self.new) ≡ parts_in (book_of self.old) }
        ensures err { IfErr result (λ fault. IsFailedSync (book_of self.old) (book_of self.new) fault) }
        ensures keeps { KeepsBooks (book_of self.old) (book_of self.new) }
        ensures cause { HasCause Fault.WriteFault (V.faults (volume_of self.old)) (V.faults (volume_of self.new)) result }
        ensures once { CountsOnce (V.faults (volume_of self.old)) (V.faults (volume_of self.new)) result }
    {
        if self.ledger.has_unsynced() {
            self.write(alloc)?;
        }
        Ok(Receipt {
            through: self.ledger.last,
            part,
            change: self.ledger.counts[usize::from(part)],
        })
    }

    /// Writes what is unsynced, behind the newest log or into a new one.
    fn write(&mut self, alloc: Global) -> Result<(), Fault>
        requires { HasUnsynced (book_of self.old) }
        ensures book { OnOk result (book_of self.new ≡ synced_in (number_for (book_of self.old))
            (len_for (book_of self.old) + length (book_of self.old).waiting) (written_in (book_of self.old))) }
        ensures room { OnOk result (number_for (book_of self.old) < 2 ^ 62) }
        ensures written { IsTrue V.tells → OnOk result (Writes (book_of self.old) (V.view (volume_of self.old)).contents (V.view (volume_of self.new)).contents) }
        ensures lasting { IsTrue V.tells → OnOk result (IsLasting (log_name (number_for (book_of self.old))) (V.view (volume_of self.new))) }
        ensures elsewhere { IsTrue V.tells → KeepsOthers (log_name (number_for (book_of self.old)))
            (V.view (volume_of self.old)).contents (V.view (volume_of self.new)).contents }
        ensures reaches { IsTrue V.tells → KeepsReach (book_of self.old) (book_of self.new) (V.view (volume_of self.old)) (V.view (volume_of self.new)) }
        ensures sure { IsTrue V.tells → KeepsSure (V.view (volume_of self.old)) (V.view (volume_of self.new)) }
        ensures err { IfErr result (λ fault. IsFailedWrite (book_of self.old) (book_of self.new) fault) }
        ensures cause { HasCause Fault.WriteFault (V.faults (volume_of self.old)) (V.faults (volume_of self.new)) result }
        ensures once { CountsOnce (V.faults (volume_of self.old)) (V.faults (volume_of self.new)) result }
    {
        let len = self.ledger.writing.take();
        match (self.log.take(), len) {
            (Some(log), Some(len)) if len < LOG_LIMIT => self.extend(alloc, log, len),
            _ => self.begin(alloc),
        }
    }

    /// Puts what waits behind the newest log, of this length.
    fn extend(&mut self, alloc: Global, mut log: V::Log, len: u64) -> Result<(), Fault>
        requires none { (book_of self.old).writing ≡ None }
        requires small { len < 2 ^ 24 }
        requires kept { (book_of self.old).newest < 2 ^ 62 }
        requires open { IsTrue (V.in_writing (volume_of self.old) log) }
        requires named { V.log_name log ≡ log_name (book_of self.old).newest }
        ensures book { OnOk result (book_of self.new ≡ synced_in (book_of self.old).newest (len + length (book_of self.old).waiting) (book_of self.old)) }
        ensures written { IsTrue V.tells → OnOk result (Adds (log_name (book_of self.old).newest) (book_of self.old).waiting
            (V.view (volume_of self.old)).contents (V.view (volume_of self.new)).contents) }
        ensures lasting { IsTrue V.tells → OnOk result (IsLasting (log_name (book_of self.old).newest) (V.view (volume_of self.new))) }
        ensures elsewhere { IsTrue V.tells → KeepsOthers (log_name (book_of self.old).newest)
            (V.view (volume_of self.old)).contents (V.view (volume_of self.new)).contents }
        ensures reaches { IsTrue V.tells → ExtendKeeps len (book_of self.old) (book_of self.new) (V.view (volume_of self.old)) (V.view (volume_of self.new)) }
        ensures sure { IsTrue V.tells → KeepsSure (V.view (volume_of self.old)) (V.view (volume_of self.new)) }
        ensures same { OnErr result (book_of self.new ≡ book_of self.old) }
        ensures outside { IfErr result (λ fault. IsUnwritten fault) }
        ensures cause { HasCause Fault.WriteFault (V.faults (volume_of self.old)) (V.faults (volume_of self.new)) result }
        ensures once { CountsOnce (V.faults (volume_of self.old)) (V.faults (volume_of self.new)) result }
    {
        let ledger = &self.ledger;
        let waiting = ledger.frames.waiting();
        let len = len + waiting.len() as u64;
        append_lasting(alloc, &mut self.vol, &mut log, waiting)?;
        let number = self.ledger.newest;
        self.ledger.note_synced(number, len);
        self.log = Some(log);
        Ok(())
    }

    /// Begins the next log with what waits.
    fn begin(&mut self, alloc: Global) -> Result<(), Fault>
        requires none { (book_of self.old).writing ≡ None }
        requires unsynced { HasUnsynced (book_of self.old) }
        ensures book { OnOk result (book_of self.new ≡ synced_in ((book_of self.old).newest + 1)
            (31 + 8 * parts_in (book_of self.old) + length (book_of self.old).waiting) (begun_in (book_of self.old))) }
        ensures room { OnOk result ((book_of self.old).newest + 1 < 2 ^ 62) }
        ensures written { IsTrue V.tells → OnOk result (BeginsLog (book_of self.old) (V.view (volume_of self.old)).contents (V.view (volume_of self.new)).contents) }
        ensures lasting { IsTrue V.tells → OnOk result (IsLasting (log_name ((book_of self.old).newest + 1)) (V.view (volume_of self.new))) }
        ensures elsewhere { IsTrue V.tells → KeepsOthers (log_name ((book_of self.old).newest + 1))
            (V.view (volume_of self.old)).contents (V.view (volume_of self.new)).contents }
        ensures reaches { IsTrue V.tells → KeepsReach (book_of self.old) (book_of self.new) (V.view (volume_of self.old)) (V.view (volume_of self.new)) }
        ensures sure { IsTrue V.tells → KeepsSure (V.view (volume_of self.old)) (V.view (volume_of self.new)) }
        ensures err { IfErr result (λ fault. IsFailedWrite (book_of self.old) (book_of self.new) fault) }
        ensures cause { HasCause Fault.WriteFault (V.faults (volume_of self.old)) (V.faults (volume_of self.new)) result }
        ensures once { CountsOnce (V.faults (volume_of self.old)) (V.faults (volume_of self.new)) result }
    {
        let number = self.ledger.next_log()?;
        let head = self.ledger.next_head(alloc)?;
        let bytes = self.ledger.begun(alloc, number, &head)?;
        self.ledger.note_tried(number, head)?;
        let log = begin_log(alloc, &mut self.vol, number, &bytes)?;
        self.ledger.note_synced(number, bytes.len() as u64);
        self.log = Some(log);
        Ok(())
    }

    /// The partition needs its first `change` changes no more. The oldest logs go, one after the other, as long as the head that
    /// follows counts released changes alone and that log or a later one has a sure head. After an error they may go at the next
    /// release of any partition; what is released stays so.
    pub fn release(&mut self, alloc: Global, part: u16, change: u64) -> Result<(), Fault>
        requires part { part < parts_in (book_of self.old) }
        requires change { change ≤ changes_of (book_of self.old) part }
        ensures cut { IsCut (after_release part change (book_of self.old)) (book_of self.new) }
        ensures least { OnOk result (FirstMayGo (book_of self.new) (book_of self.new).logs → ⊥) }
        ensures parts { parts_in (book_of self.new) ≡ parts_in (book_of self.old) }
        ensures err { IfErr result (λ fault. IsUnwritten fault) }
        ensures only { IsTrue V.tells → OnlyLogsGo (book_of self.old).anchor (V.view (volume_of self.old)).contents (V.view (volume_of self.new)).contents }
        ensures keeps { KeepsBooks (book_of self.old) (book_of self.new) }
        ensures reaches { IsTrue V.tells → KeepsReach (book_of self.old) (book_of self.new) (V.view (volume_of self.old)) (V.view (volume_of self.new)) }
        ensures cause { HasCause Fault.WriteFault (V.faults (volume_of self.old)) (V.faults (volume_of self.new)) result }
        ensures once { CountsOnce (V.faults (volume_of self.old)) (V.faults (volume_of self.new)) result }
    {
        self.ledger.release(part, change);
        self.remove_released(alloc)
    }

    /// Removes the oldest logs as long as they may go.
    fn remove_released(&mut self, alloc: Global) -> Result<(), Fault>
        ensures cut { IsCut (book_of self.old) (book_of self.new) }
        ensures least { OnOk result (FirstMayGo (book_of self.new) (book_of self.new).logs → ⊥) }
        ensures err { IfErr result (λ fault. IsUnwritten fault) }
        ensures only { IsTrue V.tells → OnlyLogsGo (book_of self.old).anchor (V.view (volume_of self.old)).contents (V.view (volume_of self.new)).contents }
        ensures reaches { IsTrue V.tells → KeepsReach (book_of self.old) (book_of self.new) (V.view (volume_of self.old)) (V.view (volume_of self.new)) }
        ensures cause { HasCause Fault.WriteFault (V.faults (volume_of self.old)) (V.faults (volume_of self.new)) result }
        ensures once { CountsOnce (V.faults (volume_of self.old)) (V.faults (volume_of self.new)) result }
    {
        while self.ledger.first_may_go() {
            self.remove_first(alloc)?;
        }
        Ok(())
    }

    /// Removes the oldest log.
    fn remove_first(&mut self, alloc: Global) -> Result<(), Fault>
        requires { FirstMayGo (book_of self.old) (book_of self.old).logs }
        ensures book { OnOk result (book_of self.new ≡ behind_first (book_of self.old)) }
        ensures same { OnErr result (book_of self.new ≡ book_of self.old) }
        ensures err { IfErr result (λ fault. IsUnwritten fault) }
        ensures only { IsTrue V.tells → OnlyLogsGo (book_of self.old).anchor (V.view (volume_of self.old)).contents (V.view (volume_of self.new)).contents }
        ensures reaches { IsTrue V.tells → KeepsReach (book_of self.old) (book_of self.new) (V.view (volume_of self.old)) (V.view (volume_of self.new)) }
        ensures cause { HasCause Fault.WriteFault (V.faults (volume_of self.old)) (V.faults (volume_of self.new)) result }
        ensures once { CountsOnce (V.faults (volume_of self.old)) (V.faults (volume_of self.new)) result }
    {
        let number = self.ledger.logs[0].number;
        remove_log(alloc, &mut self.vol, number)?;
        self.ledger.forget_first();
        Ok(())
    }

    /// The volume. What is not synced is lost.
    pub fn into_volume(self) -> V
        ensures { result ≡ volume_of self }
    {
        let WalState {
            vol,
            ledger: _,
            log: _,
        } = self;
        vol
    }
}
