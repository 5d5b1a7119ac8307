//! Workloads over the shared log of a volume in memory, of one partition, with documents of `size` bytes, at most 1 MiB, under
//! one key of 20 bytes. A record has 56 bytes more than its document.

ghost use Rattle.std.specs.Prelude.{◌≡◌, ◌<◌, None, IfOk};
ghost use Rattle.mg_memdisk.specs.Volumes.{IsSettled};
ghost use Rattle.mg_wal_format.specs.Records.{mark_of};
ghost use Rattle.mg_wal.specs.Book.{parts_in};
ghost use Rattle.mg_wal.specs.States.{book_of};

use anyhow::{Context, Result};
use mg_memdisk::MemVolume;
use mg_model::Change;
use mg_types::{Doc, Key};
use mg_wal::{WalState, recover};
use std::alloc::Global;

const MOST_BYTES: usize = 1 << 20;

/// How many records a sync makes lasting, where not each has a sync of its own.
const BATCH: u64 = 1_000;

/// Pushes `count` records with a sync behind each, and answers the number of the last.
pub fn push_synced_each(alloc: Global, count: u64, size: usize) -> Result<u64> {
    let (_, last) = written(alloc, count, size, 1)?;
    Ok(last)
}

/// Pushes `count` records with a sync behind each 1,000, and answers the number of the last.
pub fn push_synced_by_thousand(alloc: Global, count: u64, size: usize) -> Result<u64> {
    let (_, last) = written(alloc, count, size, BATCH)?;
    Ok(last)
}

/// Pushes `count` records and takes what a crash leaves of them, and answers the number of the last: all that `recover_log` does
/// before it recovers.
pub fn leave_log(alloc: Global, count: u64, size: usize) -> Result<u64> {
    let (_, last) = left(alloc, count, size)?;
    Ok(last)
}

/// Recovers a log of `count` records, and answers how many were found.
pub fn recover_log(alloc: Global, count: u64, size: usize) -> Result<u64> {
    let (vol, _) = left(alloc, count, size)?;
    let (_, found) = Log::recovered(alloc, vol)?;
    Ok(found)
}

/// A shared log of one partition.
#[derive(Drop)]
struct Log {
    state: WalState<MemVolume>,
    ghost part: { 0 < parts_in (book_of state) },
}

impl Log {
    /// The log of a volume, and how many records it has.
    fn recovered(alloc: Global, vol: MemVolume) -> Result<(Log, u64)>
        requires { IsSettled vol }
    {
        match recover(alloc, vol, 1) {
            Ok((state, records, _)) => Ok((Log { state }, records.len() as u64)),
            Err(error) => Err(error.fault.into()),
        }
    }

    fn push(&mut self, what: &Change) -> Result<()>
        requires { mark_of what.now ≡ None }
    {
        self.state.reserve(0, what)?;
        self.state.push();
        Ok(())
    }

    /// Answers the number of the last record.
    fn sync(&mut self, alloc: Global) -> Result<u64> {
        let receipt = self.state.sync(alloc, 0)?;
        Ok(receipt.through())
    }
}

/// A log of so many records, with a sync behind each batch and behind the last record, and the number of that.
fn written(alloc: Global, count: u64, size: usize, batch: u64) -> Result<(Log, u64)>
    requires { 0 < batch }
{
    let what = set_of(alloc, size)?;
    let vol = MemVolume::new(alloc, Vec::new(alloc));
    let (mut log, _) = Log::recovered(alloc, vol)?;
    for number in 0..count {
        log.push(&what)?;
        if number % batch == batch - 1 {
            log.sync(alloc)?;
        }
    }
    let last = log.sync(alloc)?;
    Ok((log, last))
}

/// What a crash leaves of a volume whose log has so many records, and the number of the last.
fn left(alloc: Global, count: u64, size: usize) -> Result<(MemVolume, u64)>
    ensures { IfOk result (λ left. IsSettled left.0) }
{
    let (Log { state }, last) = written(alloc, count, size, BATCH)?;
    let vol = state.into_volume().crash(alloc, &[])?;
    Ok((vol, last))
}

fn set_of(alloc: Global, size: usize) -> Result<Change>
    ensures { IfOk result (λ what. mark_of what ≡ None) }
{
    let body = vec![in alloc; b'v'; size.min(MOST_BYTES)]?;
    Ok(Change::Set {
        key: Key::new(alloc, b"key of each document")?.context("a key has a byte")?,
        doc: Doc::from_vec(body).context("a document is too long")?,
    })
}
