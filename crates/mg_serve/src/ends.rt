//! The end lines of a run.

ghost use Rattle.std.specs.Prelude.{◌≡◌, ◌<◌, ◌≤◌, OnOk, MatchResult};
ghost use Rattle.std.specs.Io.KnownBytes.{Appends};
ghost use Rattle.mg_recover.specs.Stores.{log_book, partitions_of};
ghost use Rattle.mg_serve.specs.Serving.{partition_end, partition_ends, BrokeInEnds};
ghost use Rattle.mg_serve.specs.Told.{joined};
ghost use Rattle.mg_serve.specs.Writing.{Wrote};
ghost use Rattle.mg_wal.specs.Book.{parts_in};

use crate::writing::write_all;
use mg_disk::Volume;
use mg_io::Sink;
use mg_model::Fault;
use mg_recover::Store;
use mg_script::put_end;
use std::alloc::Global;

/// Writes the end line of a partition. After an error a front of it was written.
fn write_end<V: Volume, K: Sink>(
    alloc: Global,
    store: &Store<V>,
    part: u16,
    out: &mut K,
) -> Result<(), Fault>
    requires { part < parts_in (log_book store.now) }
    ensures later { K.faults out.old ≤ K.faults out.new }
    ensures good { OnOk result (K.faults out.new ≡ K.faults out.old) }
    ensures wrote { Wrote (K.written out.old) (K.written out.new) (K.faults out.old) (K.faults out.new) (partition_end (partitions_of store.now) part) result }
{
    let mut text = Vec::new(alloc);
    put_end(
        part,
        store.places(part),
        store.length(part),
        store.epoch(part),
        &mut text,
    )?;
    write_all(out, &text)
}

/// Writes the end lines of the first partitions, in rising order.
pub(crate) fn write_ends<V: Volume, K: Sink>(
    alloc: Global,
    store: &Store<V>,
    parts: u16,
    out: &mut K,
) -> Result<(), Fault>
    requires { parts ≤ parts_in (log_book store.now) }
    ensures later { K.faults out.old ≤ K.faults out.new }
    ensures good { OnOk result (K.faults out.new ≡ K.faults out.old) }
    ensures wrote { MatchResult result (λ _. Appends (K.written out.old) (K.written out.new) (joined (partition_ends (partitions_of store.now) parts)))
        (λ fault. BrokeInEnds (partitions_of store.now) parts (K.written out.old) (K.written out.new) (K.faults out.old) (K.faults out.new) fault) }
{
    for part in 0..parts {
        write_end(alloc, store, part, out)?;
    }
    Ok(())
}
