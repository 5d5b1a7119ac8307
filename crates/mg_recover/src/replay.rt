//! The changes of the log's records, made again.

ghost use Rattle.std.specs.Prelude.{◌≡◌, ◌⊎◌, ◌<◌, ◌^◌, ◌-◌, min, ℕ, List, ◌∷◌, ◌++◌, length, IfOk, IfErr, MatchOption};
ghost use Rattle.std.specs.List.{AllByRecursion};
ghost use Rattle.mg_recover.specs.Made.{entries_of, AreMade};
ghost use Rattle.mg_recover.specs.Refusals.{IsStoreRefusal, IsUnfit};
ghost use Rattle.mg_recover.specs.Replays.{offset_in, AreGiven, AreReplayed, BeginLater, IsForbidden, IsNewestAt, NamesLog};
ghost use Rattle.mg_recover.specs.Stores.{new_partition, part_at};
ghost use Rattle.mg_wal_format.specs.Logs.{Log};

use crate::partition::Partition;
use mg_frame::FRAME_OVERHEAD;
use mg_model::Fault;
use mg_wal::{KnownLog, log_file};
use mg_wal_format::{Rec, record_len};
use std::alloc::{AllocError, Global};

/// How many bytes the frame of a head has, beside 8 for each partition that it counts.
const HEAD_REST: u64 = FRAME_OVERHEAD as u64 + 11;

/// So many partitions to which nothing has happened.
fn new_partitions(alloc: Global, parts: u16) -> Result<Vec<Partition>, AllocError>
    ensures parts { IfOk result (λ partitions. length partitions.items ≡ parts) }
    ensures new { IfOk result (λ partitions. (part : ℕ) → part_at partitions.items part ≡ new_partition) }
{
    let mut partitions = Vec::with_capacity(alloc, usize::from(parts))?;
    for _ in 0..parts {
        partitions.push(Partition::new(alloc))?;
    }
    Ok(partitions)
}

/// The newest of the logs that begins at this number or before it.
fn newest_at(logs: &[KnownLog], number: u64) -> Option<&KnownLog>
    ensures { MatchOption result (BeginLater number logs.now) (λ log. IsNewestAt logs.now number log.now) }
{
    let mut newest = None;
    for log in logs {
        if log.head.first <= number {
            newest = Some(log);
        }
    }
    newest
}

/// The offset in a log behind its head and those of the records that stand in it.
fn offset_in(log: &KnownLog, records: &[Rec]) -> u64
    ensures { result ≡ min (offset_in log.now records.now) (2 ^ 64 - 1) }
{
    let mut at = HEAD_REST.saturating_add((log.head.before.len() as u64).saturating_mul(8));
    for rec in records {
        if rec.number >= log.head.first {
            at = at.saturating_add((FRAME_OVERHEAD + record_len(&rec.what)) as u64);
        }
    }
    at
}

/// The fault of a record behind these others that its partition does not allow.
fn forbidden(logs: &[KnownLog], before: &[Rec], rec: &Rec) -> Fault
    ensures names { NamesLog result }
    ensures placed { (parts : ℕ) (found : List Log) (behind : List Rec) → AreGiven parts found logs.now (before.now ++ rec.now ∷ behind)
        → IsForbidden found before.now rec.now result }
{
    match newest_at(logs, rec.number) {
        Some(log) => Fault::Malformed {
            file: log_file(log.number),
            at: offset_in(log, before),
        },
        None => Fault::Malformed {
            file: log_file(0),
            at: 0,
        },
    }
}

/// The partitions to which the changes of these records lead, each made where those before it led. The first that may not be
/// made is refused, by its place in these logs.
pub(crate) fn replay(
    alloc: Global,
    logs: &[KnownLog],
    records: &[Rec],
    parts: u16,
) -> Result<Vec<Partition>, Fault>
    requires { AllByRecursion (λ rec. rec.part < parts) records.now }
    ensures parts { IfOk result (λ partitions. length partitions.items ≡ parts) }
    ensures made { IfOk result (λ partitions. AreMade (entries_of records.now)) }
    ensures states { IfOk result (λ partitions. AreReplayed parts records.now partitions.items) }
    ensures err { IfErr result (λ f. (f ≡ Fault.NoMemory) ⊎ IsStoreRefusal parts f) }
    ensures unfit { (found : List Log) → AreGiven parts found logs.now records.now → IfErr result (λ f. (f ≡ Fault.NoMemory) ⊎ IsUnfit found records.now f) }
{
    let mut partitions = new_partitions(alloc, parts)?;
    for (at, rec) in records.iter().enumerate() {
        if !partitions[usize::from(rec.part)].make(alloc, &rec.what)? {
            return Err(forbidden(logs, &records[..at], rec));
        }
    }
    Ok(partitions)
}
