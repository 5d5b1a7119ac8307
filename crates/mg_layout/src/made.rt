//! What a flush, a merge and a cleaning made, beside what they took.
//!
//! That the files are those of the definitions is a relation over what a port tells of them, which builds ensure and installs
//! require.

use crate::jobs::{CleanJob, FlushJob, MergeJob};
use crate::run::Run;
use mg_dellist::DelList;
use mg_segment::Segment;
use std::alloc::Global;
use std::marker::Model;
use std::sync::Arc;

/// A run and a segment in place of a frozen memtable.
#[derive(Drop)]
pub struct FlushMade<S> {
    pub job: FlushJob,
    pub run: Run<S>,
    pub segment: Arc<Segment<S>, Global>,
}

impl<S> Model for FlushMade<S> {
    ghost use Rattle.std.specs.Arc.{arc_value};
    ghost use Rattle.mg_layout.specs.Jobs.{FlushFiles};

    ghost Value = { FlushFiles S };

    ghost view = { λ made. record { work = made.job; run = made.run; segment = arc_value made.segment } };
}

/// One run in place of several.
#[derive(Drop)]
pub struct MergeMade<S> {
    pub job: MergeJob<S>,
    pub run: Run<S>,
    /// The replaced entries; None where no entry was.
    pub deletes: Option<Arc<DelList<S>, Global>>,
}

impl<S> Model for MergeMade<S> {
    ghost use Rattle.std.specs.Arc.{arc_value};
    ghost use Rattle.std.specs.Option.{option_map};
    ghost use Rattle.mg_layout.specs.Jobs.{MergeFiles};

    ghost Value = { MergeFiles S };

    ghost view = { λ made. record { work = made.job; run = made.run; deletes = option_map arc_value made.deletes } };
}

/// One segment at most in place of several, and one delete list at most in place of those by which they were cleaned.
#[derive(Drop)]
pub struct CleanMade<S> {
    pub job: CleanJob<S>,
    /// The records that were left; None where none was.
    pub segment: Option<Arc<Segment<S>, Global>>,
    /// The delete entries whose records were not there; None where there was none.
    pub deletes: Option<Arc<DelList<S>, Global>>,
}

impl<S> Model for CleanMade<S> {
    ghost use Rattle.std.specs.Arc.{arc_value};
    ghost use Rattle.std.specs.Option.{option_map};
    ghost use Rattle.mg_layout.specs.Jobs.{CleanFiles};

    ghost Value = { CleanFiles S };

    ghost view = { λ made. record { work = made.job; segment = option_map arc_value made.segment; deletes = option_map arc_value made.deletes } };
}
