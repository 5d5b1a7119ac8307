//! The index's entries of an interval, in a file.

ghost use Rattle.std.specs.Prelude.{◌≡◌, IfOk};
ghost use Rattle.std.specs.Arc.{arc_value};

use mg_table::Table;
use std::alloc::{AllocError, Global};
use std::marker::Model;
use std::sync::Arc;

/// The index's entries of an interval of sequence numbers, in one table that several layouts may share.
#[derive(Drop)]
pub struct Run<S> {
    /// The interval begins above this number.
    pub lo: u64,
    /// The last number of the interval.
    pub hi: u64,
    pub table: Arc<Table<S>, Global>,
}

impl<S> Model for Run<S> {
    ghost use Rattle.std.specs.Arc.{arc_value};
    ghost use Rattle.mg_layout.specs.Files.{RunFile};

    ghost Value = { RunFile S };

    ghost view = { λ run. record { lo = run.lo; hi = run.hi; table = arc_value run.table } };
}

impl<S> Run<S> {
    /// The table of the run's entries.
    pub fn table(&self) -> &Table<S>
        ensures { result.now ≡ self.now.table }
    {
        &self.table
    }
}

impl<S: Drop> Clone for Run<S> {
    ghost is_clone = { λ run other. other ≡ run };

    /// The same run once more; its table is shared, and nothing is copied.
    fn clone(&self) -> Result<Run<S>, AllocError> {
        Ok(Run {
            lo: self.lo,
            hi: self.hi,
            table: Arc::try_clone(&self.table)?,
        })
    }
}
