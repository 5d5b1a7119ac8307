//! What a flush, a merge and a cleaning take, and what they made.

ghost use Rattle.std.specs.Prelude.{◌≡◌, ◌≢◌, ◌+◌, ◌<◌, ◌^◌, [], map};
ghost use Rattle.std.specs.Arc.{arc_value};

use crate::run::Run;
use mg_dellist::DelList;
use mg_mem::Frozen;
use mg_segment::Segment;
use std::alloc::Global;
use std::marker::Model;
use std::sync::Arc;

/// A frozen memtable of a partition that is to be flushed. The table's file gets the number `first`, and the segment's the next
/// one.
#[derive(Drop)]
pub struct FlushJob {
    part: u16,
    memtable: Arc<Frozen, Global>,
    first: u64,
}

impl Model for FlushJob {
    ghost use Rattle.std.specs.Prelude.{◌≢◌, ◌+◌, ◌<◌, ◌^◌, []};
    ghost use Rattle.std.specs.Arc.{arc_value};
    ghost use Rattle.mg_layout.specs.Jobs.{FlushWork};

    ghost Value = { FlushWork };

    ghost view = { λ job. record { part = job.part; memtable = arc_value job.memtable; first = job.first } };

    ghost invariant = { λ job. ((arc_value job.memtable).items ≢ []) × (job.first + 1 < 2 ^ 62) };
}

impl FlushJob {
    /// Takes no memory.
    pub fn of(part: u16, memtable: Arc<Frozen, Global>, first: u64) -> FlushJob
        requires some { (arc_value memtable).items ≢ [] }
        requires numbers { first + 1 < 2 ^ 62 }
        ensures { result ≡ record { part = part; memtable = arc_value memtable; first = first } }
    {
        FlushJob {
            part,
            memtable,
            first,
        }
    }

    pub fn part(&self) -> u16
        ensures { result ≡ self.now.part }
    {
        self.part
    }

    /// The memtable, which has an item.
    pub fn memtable(&self) -> &Frozen
        ensures memtable { result.now ≡ self.now.memtable }
        ensures some { self.now.memtable.items ≢ [] }
    {
        &self.memtable
    }

    /// The first of the two file numbers that the flush may take.
    pub fn first(&self) -> u64
        ensures first { result ≡ self.now.first }
        ensures small { self.now.first + 1 < 2 ^ 62 }
    {
        self.first
    }
}

/// Neighbouring runs of a partition that are to be merged, the newest first. The table's file gets the number `first`, and that of
/// the delete list the next one.
#[derive(Drop)]
pub struct MergeJob<S> {
    part: u16,
    runs: Vec<Run<S>>,
    first: u64,
}

impl<S> Model for MergeJob<S> {
    ghost use Rattle.std.specs.Prelude.{◌≢◌, ◌+◌, ◌<◌, ◌^◌, []};
    ghost use Rattle.mg_layout.specs.Jobs.{MergeWork};

    ghost Value = { MergeWork S };

    ghost view = { λ job. record { part = job.part; runs = job.runs.items; first = job.first } };

    ghost invariant = { λ job. (job.runs.items ≢ []) × (job.first + 1 < 2 ^ 62) };
}

impl<S> MergeJob<S> {
    /// Takes no memory.
    pub fn of(part: u16, runs: Vec<Run<S>>, first: u64) -> MergeJob<S>
        requires some { runs.items ≢ [] }
        requires numbers { first + 1 < 2 ^ 62 }
        ensures { result ≡ record { part = part; runs = runs.items; first = first } }
    {
        MergeJob { part, runs, first }
    }

    pub fn part(&self) -> u16
        ensures { result ≡ self.now.part }
    {
        self.part
    }

    /// The runs, the newest first. There is at least one.
    pub fn runs(&self) -> &[Run<S>]
        ensures runs { result.now ≡ self.now.runs }
        ensures some { self.now.runs ≢ [] }
    {
        &self.runs
    }

    /// The first of the two file numbers that the merge may take.
    pub fn first(&self) -> u64
        ensures first { result ≡ self.now.first }
        ensures small { self.now.first + 1 < 2 ^ 62 }
    {
        self.first
    }
}

/// Neighbouring segments of a partition that are to be cleaned, the oldest first, with the delete lists by which they are. It has no
/// table, so a cleaning can't look into the index. The segment's file gets the number `first`, and that of the delete list the next
/// one.
#[derive(Drop)]
pub struct CleanJob<S> {
    part: u16,
    segments: Vec<Arc<Segment<S>, Global>>,
    deletes: Vec<Arc<DelList<S>, Global>>,
    first: u64,
}

impl<S> Model for CleanJob<S> {
    ghost use Rattle.std.specs.Prelude.{◌≢◌, ◌+◌, ◌<◌, ◌^◌, [], map};
    ghost use Rattle.std.specs.Arc.{arc_value};
    ghost use Rattle.mg_layout.specs.Jobs.{CleanWork};

    ghost Value = { CleanWork S };

    ghost view = { λ job. record { part = job.part; segments = map arc_value job.segments.items; deletes = map arc_value job.deletes.items; first = job.first } };

    ghost invariant = { λ job. (job.segments.items ≢ []) × (job.first + 1 < 2 ^ 62) };
}

impl<S> CleanJob<S> {
    /// Takes no memory.
    pub fn of(
        part: u16,
        segments: Vec<Arc<Segment<S>, Global>>,
        deletes: Vec<Arc<DelList<S>, Global>>,
        first: u64,
    ) -> CleanJob<S>
        requires some { segments.items ≢ [] }
        requires numbers { first + 1 < 2 ^ 62 }
        ensures { result ≡ record { part = part; segments = map arc_value segments.items; deletes = map arc_value deletes.items; first = first } }
    {
        CleanJob {
            part,
            segments,
            deletes,
            first,
        }
    }

    pub fn part(&self) -> u16
        ensures { result ≡ self.now.part }
    {
        self.part
    }

    /// The segments, the oldest first. There is at least one.
    pub fn segments(&self) -> &[Arc<Segment<S>, Global>]
        ensures segments { map arc_value result.now ≡ self.now.segments }
        ensures some { result.now ≢ [] }
    {
        &self.segments
    }

    pub fn deletes(&self) -> &[Arc<DelList<S>, Global>]
        ensures { map arc_value result.now ≡ self.now.deletes }
    {
        &self.deletes
    }

    /// The first of the two file numbers that the cleaning may take.
    pub fn first(&self) -> u64
        ensures first { result ≡ self.now.first }
        ensures small { self.now.first + 1 < 2 ^ 62 }
    {
        self.first
    }
}
