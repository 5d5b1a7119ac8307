//! Records: one change of one partition each. A record's frame has the record's number; here is the frame's body.

ghost use Rattle.std.specs.Prelude.{◌≡◌, ◌++◌, ◌<◌, ◌≤◌, ◌^◌, ◌⊎◌, ℕ, length, take, IfOk, IfErr, IfSome, OnOk, OnErr, IsOkUnless};
ghost use Rattle.mg_frame.specs.Frame.{frame};
ghost use Rattle.mg_wal_format.specs.Faults.{record_fault, IsRecordRefused};
ghost use Rattle.mg_wal_format.specs.Records.{counts_in, mark_of, record_body, record_bytes, IsChange, IsNext, IsNumbered, IsReading};

use crate::change::{change_len, put_change, read_change};
use crate::faults::too_great;
use mg_frame::{begin_frame, end_frame, put_u16, put_u64, split_u16, split_u64};
use mg_model::Change;
use mg_types::{Fault, FileId, NUMBER_LIMIT};
use std::alloc::{AllocError, Global};

/// A record of the shared log.
#[derive(Debug, Drop)]
pub struct Rec {
    /// Its number in the one list of all partitions' changes, from 1 on.
    pub number: u64,
    pub part: u16,
    /// Its number among the changes of its partition, from 1 on.
    pub change: u64,
    pub what: Change,
}

/// How many bytes the body of a record of this change takes.
#[tactic(auto, unfolding(crate::specs::Records::record_body))]
pub fn record_len(what: &Change) -> usize
    ensures exact { (part change : ℕ) → result ≡ length (record_body part change what.now) }
    ensures bound { result ≤ 1048842 }
    ensures form { IsChange what.now }
{
    10 + change_len(what)
}

/// Appends the body of a record, whose numbers a file may keep. After an error a front of it may stand there.
#[tactic(auto, unfolding(crate::specs::Records::record_body))]
pub fn put_record(
    part: u16,
    change: u64,
    what: &Change,
    out: &mut Vec<u8>,
) -> Result<(), AllocError>
    requires change { change < 2 ^ 62 }
    requires mark { IfSome (mark_of what.now) (λ mark. mark < 2 ^ 62) }
    ensures ok { OnOk result (out.new.items ≡ out.old.items ++ record_body part change what.now) }
    ensures front { take (length out.old.items) out.new.items ≡ out.old.items }
{
    put_u16(part, out)?;
    put_u64(change, out)?;
    put_change(what, out)
}

/// Appends the frame of a record, the body of which is written in place. After an error a front of it may stand there.
fn write_record_frame(
    number: u64,
    part: u16,
    change: u64,
    what: &Change,
    out: &mut Vec<u8>,
) -> Result<(), AllocError>
    requires number { number < 2 ^ 62 }
    requires change { change < 2 ^ 62 }
    requires mark { IfSome (mark_of what.now) (λ mark. mark < 2 ^ 62) }
    ensures ok { OnOk result (out.new.items ≡ out.old.items ++ frame number (record_body part change what.now)) }
    ensures front { take (length out.old.items) out.new.items ≡ out.old.items }
    ensures form { IsChange what.now }
{
    let start = begin_frame(number, record_len(what), out)?;
    put_record(part, change, what, out)?;
    end_frame(start, out)
}

/// Appends the frame of a record, whose numbers a file may keep. The change is copied once.
pub fn put_record_frame(
    number: u64,
    part: u16,
    change: u64,
    what: &Change,
    out: &mut Vec<u8>,
) -> Result<(), AllocError>
    requires number { number < 2 ^ 62 }
    requires change { change < 2 ^ 62 }
    requires mark { IfSome (mark_of what.now) (λ mark. mark < 2 ^ 62) }
    ensures ok { OnOk result (out.new.items ≡ out.old.items ++ frame number (record_body part change what.now)) }
    ensures err { OnErr result (out.new.items ≡ out.old.items) }
    ensures form { IsChange what.now }
{
    let start = out.len();
    let written = write_record_frame(number, part, change, what, out);
    if written.is_err() {
        out.truncate(start);
    }
    written
}

/// The record of this number that the body spells, all of it; none where it spells none.
#[tactic(auto, unfolding(crate::specs::Records::record_body))]
fn split_record(alloc: Global, number: u64, body: &[u8]) -> Result<Option<Rec>, Fault>
    ensures read { IfOk result (λ found. IsReading (IsNumbered number) record_bytes body.now found) }
    ensures err { IsOkUnless result Fault.NoMemory }
{
    let Some((part, rest)) = split_u16(body) else {
        return Ok(None);
    };
    let Some((change, rest)) = split_u64(rest) else {
        return Ok(None);
    };
    let Some(what) = read_change(alloc, rest)? else {
        return Ok(None);
    };
    Ok(Some(Rec {
        number,
        part,
        change,
        what,
    }))
}

/// The number of the mark that the change names.
fn mark_of(what: &Change) -> Option<u64>
    ensures { result ≡ mark_of what.now }
{
    match what {
        Change::Forget { mark } | Change::Back { mark } => Some(*mark),
        _ => None,
    }
}

/// What is wrong with a record in a frame at this offset, behind so many changes of each partition.
fn record_fault(file: FileId, at: u64, counts: &[u64], rec: &Rec) -> Option<Fault>
    ensures { result ≡ record_fault file at (length counts.now) (counts_in counts.now) rec.now }
{
    let Some(count) = counts.get(usize::from(rec.part)) else {
        return Some(Fault::Malformed { file, at });
    };
    if rec.change >= NUMBER_LIMIT {
        return Some(too_great(file, at, rec.change));
    }
    if count.checked_add(1) != Some(rec.change) {
        return Some(Fault::Malformed { file, at });
    }
    match mark_of(&rec.what) {
        Some(mark) if mark >= NUMBER_LIMIT => Some(too_great(file, at, mark)),
        _ => None,
    }
}

/// The record of this number whose body stands in a frame at this offset, behind so many changes of each partition. A body that
/// spells no record is malformed. Else its fields are judged from left to right: a partition that is not counted and a change
/// that is not the next of its partition are malformed, and a number of 2^62 or more is damaged.
pub fn read_record(
    alloc: Global,
    file: FileId,
    at: u64,
    number: u64,
    counts: &[u64],
    body: &[u8],
) -> Result<Rec, Fault>
    ensures next { IfOk result (λ rec. (rec.number ≡ number) × IsNext (length counts.now) (counts_in counts.now) rec × (body.now ≡ record_bytes rec)) }
    ensures refusals { IfErr result (λ fault. (fault ≡ Fault.NoMemory) ⊎ IsRecordRefused file at (length counts.now) (counts_in counts.now) body.now fault) }
{
    let Some(rec) = split_record(alloc, number, body)? else {
        return Err(Fault::Malformed { file, at });
    };
    match record_fault(file, at, counts, &rec) {
        Some(fault) => Err(fault),
        None => Ok(rec),
    }
}
