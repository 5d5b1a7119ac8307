//! What a state keeps beside its volume.

ghost use Rattle.std.specs.Prelude.{◌≡◌, ◌+◌, ◌<◌, ◌≤◌, ◌^◌, ℕ, IsTrue, false, get_or, length};
ghost use Rattle.std.specs.Option.{ForSome};
ghost use Rattle.mg_wal.specs.Book.{AreKept, IsReady};
ghost use Rattle.mg_wal.specs.Releases.{Covers};

use crate::frames::Frames;
use crate::known::KnownLog;
use mg_frame::put_frame;
use mg_items::Items;
use mg_model::Change;
use mg_types::{Fault, NUMBER_LIMIT};
use mg_wal_format::{Head, put_head};
use std::alloc::{AllocError, Global};

/// What a state keeps beside its volume.
#[derive(Debug, Drop)]
pub(crate) struct Ledger {
    // the number of the last record
    pub(crate) last: u64,
    // the number after the last synced record
    pub(crate) reach: u64,
    // for each partition, how many changes it has had
    pub(crate) counts: Vec<u64>,
    // how many of them are synced
    pub(crate) synced: Vec<u64>,
    // and how many of them it needs no more
    pub(crate) released: Vec<u64>,
    // the partition of the staged record
    pub(crate) staged: Option<u16>,
    pub(crate) frames: Frames,
    // the length of the newest log, where the next sync may append to it
    pub(crate) writing: Option<u64>,
    // the greatest number of a log that was found or tried
    pub(crate) newest: u64,
    // the number of the newest log whose head is synced
    pub(crate) anchor: u64,
    // the logs that a crash may leave, in the order of their numbers
    pub(crate) logs: Vec<KnownLog>,
    ghost few: { length counts.items < 2 ^ 16 },
    ghost same_parts: { length synced.items ≡ length counts.items },
    ghost released_parts: { length released.items ≡ length counts.items },
    ghost counts_are_kept: { AreKept counts.items },
    ghost synced_are_kept: { AreKept synced.items },
    ghost last_is_kept: { last < 2 ^ 62 },
    ghost order: { reach ≤ last + 1 },
    ghost newest_is_kept: { ForSome writing (λ _. newest < 2 ^ 62) },
    ghost anchor_is_tried: { anchor ≤ newest },
    ghost ready: { ForSome staged (λ part. IsReady last counts.items part) },
}

/// The greatest number that a file may keep.
const LAST_NUMBER: u64 = NUMBER_LIMIT - 1;

impl Ledger {
    ghost use Rattle.std.specs.Prelude.{◌⊎◌, nat_lt, false, IsTrue, IfOk, None, Some, IfSome, IsSome, IfErr, OnOk, OnErr};
    ghost use Rattle.mg_types.specs.declared.faults.Fault.TheVariants.{NoMemory, Worn};
    ghost use Rattle.mg_wal_format.specs.Heads.{IsSoundHead};
    ghost use Rattle.mg_wal_format.specs.Records.{mark_of};
    ghost use Rattle.mg_wal.specs.Book.{after_push, after_reserve, parts_in, staged_of, synced_of, Entry, HasRoom, HasUnsynced, IsWorn};
    ghost use Rattle.mg_wal.specs.Syncs.{begun_bytes, begun_in, head_for, synced_in};
    ghost use Rattle.mg_wal.specs.Releases.{after_release, behind_first, FirstMayGo};
    ghost use Rattle.mg_wal.specs.Lists.{IsNextOf};
    ghost use Rattle.mg_wal.specs.States.{ledger_book};

    /// Spells the change as the next record, in place of the staged one.
    pub(crate) fn reserve(&mut self, part: u16, what: &Change) -> Result<(), Fault>
        requires part { part < parts_in (ledger_book self.old) }
        requires mark { IfSome (mark_of what.now) (λ mark. mark < 2 ^ 62) }
        ensures staged { OnOk result (ledger_book self.new ≡ after_reserve (part, what.now) (ledger_book self.old)) }
        ensures room { OnOk result (HasRoom (ledger_book self.old) part) }
        ensures err { IfErr result (λ fault. (fault ≡ NoMemory) ⊎ IsWorn (ledger_book self.old) part fault) }
        ensures same { OnErr result (ledger_book self.new ≡ ledger_book self.old) }
        ensures next { OnOk result (IsNextOf (ledger_book self.old) (part, what.now)) }
    {
        if self.last >= LAST_NUMBER {
            return Err(Fault::Worn { kept: self.last });
        }
        let count = self.counts[usize::from(part)];
        if count >= LAST_NUMBER {
            return Err(Fault::Worn { kept: count });
        }
        self.frames.stage(self.last + 1, part, count + 1, what)?;
        self.staged = Some(part);
        Ok(())
    }

    /// Gives the staged record its place in the list.
    pub(crate) fn push(&mut self) -> u64
        requires { IsSome (ledger_book self.old).staged }
        ensures number { result ≡ (ledger_book self.old).last + 1 }
        ensures book { (e : Entry) → (ledger_book self.old).staged ≡ Some (staged_of (ledger_book self.old) e)
            → ledger_book self.new ≡ after_push e (ledger_book self.old) }
        ensures parts { parts_in (ledger_book self.new) ≡ parts_in (ledger_book self.old) }
        ensures writing { (ledger_book self.new).writing ≡ (ledger_book self.old).writing }
        ensures newest { (ledger_book self.new).newest ≡ (ledger_book self.old).newest }
    {
        let part = usize::from(self.staged.take().unwrap());
        self.frames.push();
        self.counts[part] += 1;
        self.last += 1;
        self.last
    }

    /// Whether some record is not synced.
    pub(crate) fn has_unsynced(&self) -> bool
        ensures { result ≡ nat_lt (synced_of (ledger_book self.now)) (ledger_book self.now).last }
    {
        self.reach.saturating_sub(1) < self.last
    }

    /// The number of the next log.
    pub(crate) fn next_log(&self) -> Result<u64, Fault>
        ensures number { IfOk result (λ number. (number ≡ (ledger_book self.now).newest + 1) × (number < 2 ^ 62)) }
        ensures err { IfErr result (λ fault. (2 ^ 62 ≤ (ledger_book self.now).newest + 1) × (fault ≡ Worn (ledger_book self.now).newest)) }
    {
        if self.newest >= LAST_NUMBER {
            return Err(Fault::Worn { kept: self.newest });
        }
        Ok(self.newest + 1)
    }

    /// The head of the next log.
    pub(crate) fn next_head(&self, alloc: Global) -> Result<Head, AllocError>
        requires { HasUnsynced (ledger_book self.now) }
        ensures head { IfOk result (λ head. head ≡ head_for (ledger_book self.now)) }
        ensures sound { IsSoundHead (head_for (ledger_book self.now)) }
    {
        Ok(Head {
            first: self.reach.saturating_sub(1) + 1,
            before: Items::from_slice(alloc, &self.synced)?,
        })
    }

    /// The next log was tried, with this head. Without memory it is not to be tried.
    pub(crate) fn note_tried(&mut self, number: u64, head: Head) -> Result<(), AllocError>
        requires number { number ≡ (ledger_book self.old).newest + 1 }
        requires head { head ≡ head_for (ledger_book self.old) }
        requires none { (ledger_book self.old).writing ≡ None }
        ensures ok { OnOk result (ledger_book self.new ≡ begun_in (ledger_book self.old)) }
        ensures err { OnErr result (ledger_book self.new ≡ ledger_book self.old) }
    {
        self.logs.push(KnownLog { number, head })?;
        self.newest = number;
        Ok(())
    }

    /// The bytes of the next log: its head, with its number, and behind it the frames that wait.
    pub(crate) fn begun(
        &self,
        alloc: Global,
        number: u64,
        head: &Head,
    ) -> Result<Vec<u8>, AllocError>
        requires number { number ≡ (ledger_book self.now).newest + 1 }
        requires head { head.now ≡ head_for (ledger_book self.now) }
        requires sound { IsSoundHead head.now }
        ensures bytes { IfOk result (λ bytes. bytes.items ≡ begun_bytes (ledger_book self.now)) }
    {
        let mut body = Vec::new(alloc);
        put_head(head, &mut body)?;
        let mut bytes = Vec::new(alloc);
        put_frame(number, &body, &mut bytes)?;
        bytes.extend_from_slice(self.frames.waiting())?;
        Ok(bytes)
    }

    /// The partition needs its first `change` changes no more.
    pub(crate) fn release(&mut self, part: u16, change: u64)
        requires { part < parts_in (ledger_book self.old) }
        ensures { ledger_book self.new ≡ after_release part change (ledger_book self.old) }
    {
        let part = usize::from(part);
        self.released[part] = self.released[part].max(change);
    }

    /// Whether the oldest log may go.
    pub(crate) fn first_may_go(&self) -> bool
        ensures yes { IsTrue result → FirstMayGo (ledger_book self.now) (ledger_book self.now).logs }
        ensures no { result ≡ false → FirstMayGo (ledger_book self.now) (ledger_book self.now).logs → ⊥ }
    {
        if self.logs.len() < 2 {
            return false;
        }
        self.logs[0].number < self.anchor
            && self.logs[1].number <= self.anchor
            && covers(&self.released, self.logs[1].head.before.as_slice())
    }

    /// The oldest log is gone.
    pub(crate) fn forget_first(&mut self)
        requires { FirstMayGo (ledger_book self.old) (ledger_book self.old).logs }
        ensures { ledger_book self.new ≡ behind_first (ledger_book self.old) }
    {
        self.logs.remove(0);
    }

    /// All is synced, in the log of this number, which has this length now.
    pub(crate) fn note_synced(&mut self, number: u64, len: u64)
        requires { number < 2 ^ 62 }
        ensures { ledger_book self.new ≡ synced_in number len (ledger_book self.old) }
    {
        self.reach = self.last + 1;
        self.synced.copy_from_slice(&self.counts);
        self.frames.written();
        self.newest = number;
        self.writing = Some(len);
        self.anchor = number;
    }
}

/// Whether each of these counts is covered by what is released.
fn covers(released: &[u64], before: &[u64]) -> bool
    ensures yes { IsTrue result → Covers released.now before.now }
    ensures no { result ≡ false → Covers released.now before.now → ⊥ }
{
    for (part, count) in before.iter().enumerate() {
        if count_at(released, part) < *count {
            return false;
        }
    }
    true
}

/// Whether both lists have the same count at each place, where those behind the last are 0.
pub(crate) fn are_same(counts: &[u64], others: &[u64]) -> bool
    ensures yes { IsTrue result → (part : ℕ) → get_or others.now part 0 ≡ get_or counts.now part 0 }
    ensures no { result ≡ false → ((part : ℕ) → get_or others.now part 0 ≡ get_or counts.now part 0) → ⊥ }
{
    covers(counts, others) && covers(others, counts)
}

/// The count at this place; 0 behind the last.
fn count_at(counts: &[u64], part: usize) -> u64
    ensures { result ≡ get_or counts.now part 0 }
{
    if part < counts.len() { counts[part] } else { 0 }
}
