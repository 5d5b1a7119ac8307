//! Layouts of files.

ghost use Rattle.std.specs.Prelude.{◌≡◌, [], map, MatchResult};
ghost use Rattle.std.specs.Arc.{arc_value};
ghost use Rattle.mg_types.specs.declared.faults.Fault.{Fault};

use crate::run::Run;
use mg_dellist::DelList;
use mg_segment::Segment;
use mg_types::Fault;
use std::alloc::Global;
use std::marker::Model;
use std::sync::Arc;

/// The files of a partition: runs from the newest to the oldest, segments from the oldest to the newest, and delete lists.
///
/// Several layouts may share a file. None of them changes it.
#[derive(Drop)]
pub struct Layout<S> {
    runs: Vec<Run<S>>,
    segments: Vec<Arc<Segment<S>, Global>>,
    deletes: Vec<Arc<DelList<S>, Global>>,
}

impl<S> Model for Layout<S> {
    ghost use Rattle.std.specs.Prelude.{map};
    ghost use Rattle.std.specs.Arc.{arc_value};
    ghost use Rattle.mg_layout.specs.Files.{LayoutFiles};

    ghost Value = { LayoutFiles S };

    ghost view = { λ l. record { runs = l.runs.items; segments = map arc_value l.segments.items; deletes = map arc_value l.deletes.items } };
}

impl<S> Layout<S> {
    /// Takes no memory until the first file comes.
    pub fn empty(alloc: Global) -> Layout<S>
        ensures runs { result.runs ≡ [] }
        ensures segments { result.segments ≡ [] }
        ensures deletes { result.deletes ≡ [] }
    {
        Layout {
            runs: Vec::new(alloc),
            segments: Vec::new(alloc),
            deletes: Vec::new(alloc),
        }
    }

    /// The layout of these files. Moves nothing and takes no memory.
    pub fn of(
        runs: Vec<Run<S>>,
        segments: Vec<Arc<Segment<S>, Global>>,
        deletes: Vec<Arc<DelList<S>, Global>>,
    ) -> Layout<S>
        ensures runs { result.runs ≡ runs.items }
        ensures segments { result.segments ≡ map arc_value segments.items }
        ensures deletes { result.deletes ≡ map arc_value deletes.items }
    {
        Layout {
            runs,
            segments,
            deletes,
        }
    }

    /// The runs, from the newest to the oldest.
    pub fn runs(&self) -> &[Run<S>]
        ensures { result.now ≡ self.now.runs }
    {
        &self.runs
    }

    /// The segments, from the oldest to the newest.
    pub fn segments(&self) -> &[Arc<Segment<S>, Global>]
        ensures { map arc_value result.now ≡ self.now.segments }
    {
        &self.segments
    }

    pub fn deletes(&self) -> &[Arc<DelList<S>, Global>]
        ensures { map arc_value result.now ≡ self.now.deletes }
    {
        &self.deletes
    }
}

impl<S: Drop> Layout<S> {
    /// The same layout once more. Its files are shared: it takes memory for three lists, and copies no file and no index.
    pub fn share(&self, alloc: Global) -> Result<Layout<S>, Fault>
        ensures { MatchResult result (λ other. other ≡ self.now) (λ fault. fault ≡ Fault.NoMemory) }
    {
        Ok(Layout {
            runs: self.runs.clone()?,
            segments: self.segments.clone()?,
            deletes: self.deletes.clone()?,
        })
    }
}
