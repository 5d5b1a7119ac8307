//! The records of one log.

ghost use Rattle.std.specs.Prelude.{◌≡◌, ◌+◌, ◌<◌, ◌≤◌, ◌^◌, ◌⊎◌, ℕ, length, drop, get_or, IfOk, IfErr, IfSome, IfNone};
ghost use Rattle.mg_frame.specs.Frame.{NoFrame};
ghost use Rattle.mg_wal_format.specs.Judging.{GivesUpTo, HasNextAt, HasRefusedAt, IsLogRefused};
ghost use Rattle.mg_wal_format.specs.Logs.{counts_after};
ghost use Rattle.mg_wal_format.specs.Records.{counts_in};

use crate::record::{Rec, read_record};
use mg_frame::{Taken, take_frame};
use mg_items::Items;
use mg_types::{Fault, FileId};
use std::alloc::Global;

/// What was read of a log.
#[derive(Debug, Drop)]
pub struct LogRecords {
    pub records: Items<Rec>,
    /// For each partition the number of its changes behind them.
    pub counts: Vec<u64>,
    /// The offset behind the last of them.
    pub stop: usize,
}

/// The record in the frame of this number at an offset of bytes that begin at the offset `base` of the file, and the offset
/// behind the frame; none where no such frame begins there.
fn read_next(
    alloc: Global,
    file: FileId,
    base: u64,
    bytes: &[u8],
    at: usize,
    number: u64,
    counts: &[u64],
) -> Result<Option<(Rec, usize)>, Fault>
    requires within { at ≤ length bytes.now }
    requires fits { base + length bytes.now < 2 ^ 64 }
    ensures none { IfOk result (λ found. IfNone found (NoFrame number (drop at bytes.now))) }
    ensures next { IfOk result (λ found. IfSome found (λ next. HasNextAt (length counts.now) (counts_in counts.now) bytes.now at number next.0 next.1)) }
    ensures refusals { IfErr result (λ fault. (fault ≡ Fault.NoMemory) ⊎ HasRefusedAt file base (length counts.now) (counts_in counts.now) bytes.now at number fault) }
{
    let Taken::Whole { start, end, next } = take_frame(bytes, at, number) else {
        return Ok(None);
    };
    let rec = read_record(
        alloc,
        file,
        base + at as u64,
        number,
        counts,
        &bytes[start..end],
    )?;
    Ok(Some((rec, next)))
}

/// The records that stand in some bytes of a log from an offset on, of which the first has the number `first` and each a number
/// below `limit`, and the offset behind them. They end where no whole frame of the next number begins, and a whole frame whose
/// body is not that of the next record is refused. The bytes begin at the offset `base` of the log, so that a fault names places
/// in the log. `counts` has for each partition the number of its changes before.
pub fn read_log(
    alloc: Global,
    file: FileId,
    base: u64,
    bytes: &[u8],
    at: usize,
    first: u64,
    limit: u64,
    mut counts: Vec<u64>,
) -> Result<LogRecords, Fault>
    requires within { at ≤ length bytes.now }
    requires fits { base + length bytes.now < 2 ^ 64 }
    requires order { first ≤ limit }
    requires kept { limit ≤ 2 ^ 62 }
    ensures gives { IfOk result (λ log. GivesUpTo (length counts.items) (counts_in counts.items) first limit bytes.now at log.records log.stop) }
    ensures counts { IfOk result (λ log. (part : ℕ) → get_or log.counts.items part 0 ≡ counts_after (counts_in counts.items) log.records part) }
    ensures parts { IfOk result (λ log. length log.counts.items ≡ length counts.items) }
    ensures refusals { IfErr result (λ fault. (fault ≡ Fault.NoMemory) ⊎ IsLogRefused file base (length counts.items) (counts_in counts.items) first limit bytes.now at fault) }
{
    let mut records = Vec::new(alloc);
    let mut stop = at;
    for number in first..limit {
        let Some((rec, next)) = read_next(alloc, file, base, bytes, stop, number, &counts)? else {
            let records = Items::from_vec(records);
            return Ok(LogRecords {
                records,
                counts,
                stop,
            });
        };
        counts[usize::from(rec.part)] = rec.change;
        records.push(rec)?;
        stop = next;
    }
    let records = Items::from_vec(records);
    Ok(LogRecords {
        records,
        counts,
        stop,
    })
}
