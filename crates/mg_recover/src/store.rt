//! The store, and its calls.

ghost use Rattle.std.specs.Prelude.{◌≡◌, length};
ghost use Rattle.mg_wal.specs.Book.{parts_in};
ghost use Rattle.mg_wal.specs.States.{book_of};

use crate::partition::{Partition, call_for, change_in, is_read};
use mg_disk::Volume;
use mg_model::{Answer, Call, Change, Fault, Reply};
use mg_wal::WalState;
use std::alloc::Global;

/// All partitions, and the log of their changes. A change is in the log, and in its partition, or in neither.
#[derive(Drop)]
pub struct Store<V: Volume> {
    pub(crate) log: WalState<V>,
    pub(crate) partitions: Vec<Partition>,
    ghost counted: { length partitions.items ≡ parts_in (book_of log) },
}

impl<V: Volume> Store<V> {
    ghost use Rattle.std.specs.Prelude.{◌++◌, ◌<◌, ◌^◌, ℕ, List, [], true, IfErr, IsTrue, Ok, OnOk};
    ghost use Rattle.mg_faults.specs.Causes.{CountsOnce, HasCause};
    ghost use Rattle.mg_model.specs.declared.calls.Call.TheVariants.{Sync};
    ghost use Rattle.mg_model.specs.Fits.{is_read};
    ghost use Rattle.mg_model.specs.History.{call_for};
    ghost use Rattle.mg_model.specs.Placed.{Placed};
    ghost use Rattle.mg_model.specs.State.{length_of, HasRoom};
    ghost use Rattle.mg_recover.specs.Answers.{placed_for, CarriesReach, IsAnswered, IsServed, IsSyncFault};
    ghost use Rattle.mg_recover.specs.Stores.{log_book, log_volume, part_at, partitions_of, AllSynced, Stands};
    ghost use Rattle.mg_recover.specs.Steps.{made_by, Gives, KeepsReachBy, Tries, TriesOne};
    ghost use Rattle.mg_wal.specs.Lists.{Basis};

    /// How many calls of the run took a place in the partition.
    pub fn places(&self, part: u16) -> u64
        requires { part < parts_in (log_book self.now) }
        ensures { result ≡ (part_at (partitions_of self.now) part).places }
    {
        self.partitions[usize::from(part)].places
    }

    /// The length of the partition's list.
    pub fn length(&self, part: u16) -> u64
        requires { part < parts_in (log_book self.now) }
        ensures { result ≡ length_of (part_at (partitions_of self.now) part).plain }
    {
        self.partitions[usize::from(part)].plain.length()
    }

    /// The partition's epoch.
    pub fn epoch(&self, part: u16) -> u64
        requires { part < parts_in (log_book self.now) }
        ensures { result ≡ (part_at (partitions_of self.now) part).plain.epoch }
    {
        self.partitions[usize::from(part)].plain.epoch()
    }

    /// Answers a call of the partition. A set or a delete takes its place once its record is in the log, which the next sync
    /// makes lasting; a sync makes all changes of all partitions lasting. A get, a feed and stats take a place also where they
    /// meet a fault; another call that meets one takes none and changes nothing.
    pub fn call(&mut self, alloc: Global, part: u16, call: Call) -> Answer
        requires part { part < parts_in (log_book self.old) }
        requires served { IsServed call }
        requires few { (part_at (partitions_of self.old) part).places < 2 ^ 62 }
        ensures answered { (basis : Basis) (placed : List Placed) (client : ℕ) → Stands basis placed (log_book self.old) (partitions_of self.old)
            → IsAnswered basis placed part client call result (log_book self.old) (log_book self.new) (partitions_of self.new) }
        ensures reaches { IsTrue V.tells → (basis : Basis) (placed : List Placed) (client : ℕ) → Stands basis placed (log_book self.old) (partitions_of self.old)
            → CarriesReach basis placed (placed ++ placed_for part client call result) (log_book self.old) (log_book self.new)
            (V.view (log_volume self.old)) (V.view (log_volume self.new)) }
        ensures volume { (call ≡ Sync → ⊥) → log_volume self.new ≡ log_volume self.old }
        ensures tries { Tries call (log_book self.old) (log_book self.new) }
        ensures parts { parts_in (log_book self.new) ≡ parts_in (log_book self.old) }
        ensures cause { HasCause Fault.WriteFault (V.faults (log_volume self.old)) (V.faults (log_volume self.new)) result.result }
        ensures once { CountsOnce (V.faults (log_volume self.old)) (V.faults (log_volume self.new)) result.result }
    {
        let reads = is_read(&call);
        let given = self.result_of(alloc, part, call, reads);
        self.partitions[usize::from(part)].place(reads, given)
    }

    /// Makes all changes lasting.
    pub fn finish(&mut self, alloc: Global) -> Result<(), Fault>
        requires { 0 < parts_in (log_book self.old) }
        ensures stands { (basis : Basis) (placed : List Placed) → Stands basis placed (log_book self.old) (partitions_of self.old)
            → Stands basis placed (log_book self.new) (partitions_of self.new) }
        ensures synced { OnOk result (AllSynced (log_book self.new)) }
        ensures reaches { IsTrue V.tells → (basis : Basis) (placed : List Placed) → Stands basis placed (log_book self.old) (partitions_of self.old)
            → CarriesReach basis placed placed (log_book self.old) (log_book self.new) (V.view (log_volume self.old)) (V.view (log_volume self.new)) }
        ensures same { partitions_of self.new ≡ partitions_of self.old }
        ensures tries { TriesOne (log_book self.old) (log_book self.new) }
        ensures parts { parts_in (log_book self.new) ≡ parts_in (log_book self.old) }
        ensures err { IfErr result (IsSyncFault (log_book self.old)) }
        ensures cause { HasCause Fault.WriteFault (V.faults (log_volume self.old)) (V.faults (log_volume self.new)) result }
        ensures once { CountsOnce (V.faults (log_volume self.old)) (V.faults (log_volume self.new)) result }
    {
        self.log.sync(alloc, 0)?;
        Ok(())
    }

    /// The volume of the log. Changes that are not synced are lost.
    pub fn into_volume(self) -> V
        ensures { result ≡ log_volume self }
    {
        let Store { log, partitions: _ } = self;
        log.into_volume()
    }

    /// What a call gives. A number at its limit is told first.
    fn result_of(
        &mut self,
        alloc: Global,
        part: u16,
        call: Call,
        reads: bool,
    ) -> Result<Reply, Fault>
        requires part { part < parts_in (log_book self.old) }
        requires served { IsServed call }
        requires reads { reads ≡ is_read call }
        ensures gives { Gives part call result (log_book self.old) (log_book self.new) (partitions_of self.old) (partitions_of self.new) }
        ensures reaches { IsTrue V.tells → KeepsReachBy (made_by part call result) (log_book self.old) (log_book self.new)
            (V.view (log_volume self.old)) (V.view (log_volume self.new)) }
        ensures volume { (call ≡ Sync → ⊥) → log_volume self.new ≡ log_volume self.old }
        ensures cause { HasCause Fault.WriteFault (V.faults (log_volume self.old)) (V.faults (log_volume self.new)) result }
        ensures once { CountsOnce (V.faults (log_volume self.old)) (V.faults (log_volume self.new)) result }
    {
        if let Some(kept) = self.partitions[usize::from(part)].plain.worn(&call) {
            return Err(Fault::Worn { kept });
        }
        match change_in(call) {
            Ok(what) => self.change(alloc, part, what),
            Err(read) if reads => self.read(alloc, part, &read),
            Err(_) => self.sync(alloc, part),
        }
    }

    /// Reserves a change in the log, makes it, and pushes it. After an error all is as before, but for the record that is reserved.
    fn change(&mut self, alloc: Global, part: u16, what: Change) -> Result<Reply, Fault>
        requires part { part < parts_in (log_book self.old) }
        requires served { IsServed (call_for what) }
        requires room { HasRoom (part_at (partitions_of self.old) part).plain (call_for what) }
        ensures gives { Gives part (call_for what) result (log_book self.old) (log_book self.new) (partitions_of self.old) (partitions_of self.new) }
        ensures reaches { IsTrue V.tells → KeepsReachBy (made_by part (call_for what) result) (log_book self.old) (log_book self.new)
            (V.view (log_volume self.old)) (V.view (log_volume self.new)) }
        ensures volume { log_volume self.new ≡ log_volume self.old }
    {
        self.log.reserve(part, &what)?;
        let call = call_for(what);
        let reply = self.partitions[usize::from(part)].apply(alloc, &call)?;
        self.log.push();
        Ok(reply)
    }

    /// Answers a call that reads.
    fn read(&mut self, alloc: Global, part: u16, call: &Call) -> Result<Reply, Fault>
        requires part { part < parts_in (log_book self.old) }
        requires reads { is_read call.now ≡ true }
        ensures gives { Gives part call.now result (log_book self.old) (log_book self.new) (partitions_of self.old) (partitions_of self.new) }
        ensures same { self.new.log ≡ self.old.log }
    {
        self.partitions[usize::from(part)].apply(alloc, call)
    }

    /// Makes all changes lasting.
    fn sync(&mut self, alloc: Global, part: u16) -> Result<Reply, Fault>
        requires part { part < parts_in (log_book self.old) }
        ensures gives { Gives part Sync result (log_book self.old) (log_book self.new) (partitions_of self.old) (partitions_of self.new) }
        ensures reaches { IsTrue V.tells → KeepsReachBy [] (log_book self.old) (log_book self.new) (V.view (log_volume self.old)) (V.view (log_volume self.new)) }
        ensures cause { HasCause Fault.WriteFault (V.faults (log_volume self.old)) (V.faults (log_volume self.new)) result }
        ensures once { CountsOnce (V.faults (log_volume self.old)) (V.faults (log_volume self.new)) result }
    {
        self.log.sync(alloc, part)?;
        Ok(Reply::Synced)
    }
}
