//! The records of the logs of a volume, in one list.

ghost use Rattle.std.specs.Prelude.{◌≡◌, ◌⊎◌, ◌+◌, ◌^◌, ◌≤◌, ◌<◌, ◌∷◌, [], ℕ, List, length, get_or, Some, IfOk, IfErr, OnOk, IsSome, IsTrue};
ghost use Rattle.mg_disk.specs.Images.{Stays};
ghost use Rattle.mg_faults.specs.Causes.{CountsOnce, HasCause};
ghost use Rattle.mg_frame.specs.Frame.{NoFrame};
ghost use Rattle.mg_wal_format.specs.Heads.{parts_of, IsSoundHead};
ghost use Rattle.mg_wal_format.specs.Judging.{GivesUpTo, IsLogRefused};
ghost use Rattle.mg_wal_format.specs.Logs.{counts_after, Gives, InOrder, Log};
ghost use Rattle.mg_wal_format.specs.Records.{counts_in};
ghost use Rattle.mg_wal_format.specs.Recovery.{first_of, log_file, log_name, low_of, IsStreamFault};
ghost use Rattle.mg_wal.specs.Findings.{AreKnown, AreReady, IsLogFault, StandIn};
ghost use Rattle.mg_wal.specs.Openings.{log_known};
ghost use Rattle.mg_wal.specs.Streams.{head_end, AreSound, BeginAt, GoesOn, HasWorn, IsJoinFault, IsWindow, StandsAs};

use crate::devices::read_fault;
use crate::known::{KnownLog, log_file, log_name};
use crate::ledger::are_same;
use crate::pieces::read_piece;
use mg_disk::Volume;
use mg_frame::{FRAME_OVERHEAD, Taken, take_frame};
use mg_types::{Fault, FileId, NUMBER_LIMIT};
use mg_wal_format::{Rec, read_log};
use std::alloc::Global;

/// What the logs of a volume give.
#[derive(Debug, Drop)]
pub(crate) struct Stream {
    pub(crate) records: Vec<Rec>,
    // for each partition, how many changes it has had behind them
    pub(crate) counts: Vec<u64>,
}

/// What was read of a log.
#[derive(Debug, Drop)]
struct Part {
    records: Vec<Rec>,
    // for each partition, how many changes it has had behind them
    counts: Vec<u64>,
    // the offset behind the last of them
    stop: u64,
    // the length of the log
    len: u64,
}

/// How many bytes of a log are read at once, unless one frame has more.
const PIECE: u64 = 65536;

/// How many bytes of a head's body stand before its counts: the format, the number of the first record and the number of
/// partitions, in 1, 8 and 2 bytes.
const BEFORE_COUNTS: usize = 11;

/// The offset behind the frame of a log's head, or the length of a log that is too short for it.
fn head_end(log: &KnownLog, len: u64) -> u64
    requires { parts_of log.now.head < 2 ^ 16 }
    ensures { result ≡ head_end log.now len }
{
    let parts = log.head.before.len();
    len.min((FRAME_OVERHEAD + BEFORE_COUNTS + 8 * parts) as u64)
}

/// A piece of a log of this length from an offset on: long enough to tell whether a frame of that number begins there.
fn read_window<V: Volume>(
    alloc: Global,
    vol: &mut V,
    log: u64,
    at: u64,
    len: u64,
    number: u64,
) -> Result<Vec<u8>, Fault>
    requires within { at ≤ len }
    requires there { IsTrue V.tells → IsSome ((V.view vol.old).contents (log_name log)) }
    ensures bound { IfOk result (λ window. at + length window.items ≤ len) }
    ensures window { IsTrue V.tells → (bytes : List ℕ) → (V.view vol.old).contents (log_name log) ≡ Some bytes → length bytes ≡ len
        → IfOk result (λ window. IsWindow bytes at number window.items) }
    ensures stays { IsTrue V.tells → Stays (V.view vol.old) (V.view vol.new) }
    ensures kinds { IfErr result (λ fault. (fault ≡ Fault.NoMemory) ⊎ (fault ≡ Fault.ReadFault)) }
    ensures cause { HasCause Fault.ReadFault (V.faults vol.old) (V.faults vol.new) result }
    ensures once { CountsOnce (V.faults vol.old) (V.faults vol.new) result }
{
    let name = log_name(log);
    let left = len - at;
    let piece = read_piece(alloc, vol, name, at, left.min(PIECE) as usize)?;
    match take_frame(&piece, 0, number) {
        Taken::Short { want, .. } if want <= left => {
            read_piece(alloc, vol, name, at, want as usize)
        }
        _ => Ok(piece),
    }
}

/// The records of a log below a limit, up to where no frame of the next number begins. It is read in pieces.
fn read_up_to<V: Volume>(
    alloc: Global,
    vol: &mut V,
    log: &KnownLog,
    limit: u64,
    mut counts: Vec<u64>,
) -> Result<Part, Fault>
    requires there { IsTrue V.tells → IsSome ((V.view vol.old).contents (log_name log.now.number)) }
    requires sound { IsSoundHead log.now.head }
    requires rise { log.now.head.first ≤ limit }
    requires kept { limit ≤ 2 ^ 62 }
    ensures order { IfOk result (λ part. InOrder (length counts.items) (counts_in counts.items) log.now.head.first part.records.items) }
    ensures counts { IfOk result (λ part. (other : ℕ) → get_or part.counts.items other 0 ≡ counts_after (counts_in counts.items) part.records.items other) }
    ensures parts { IfOk result (λ part. length part.counts.items ≡ length counts.items) }
    ensures below { IfOk result (λ part. log.now.head.first + length part.records.items ≤ limit) }
    ensures within { IfOk result (λ part. part.stop ≤ part.len) }
    ensures gives { IsTrue V.tells → (bytes : List ℕ) → (V.view vol.old).contents (log_name log.now.number) ≡ Some bytes
        → IfOk result (λ part. (part.len ≡ length bytes)
        × GivesUpTo (length counts.items) (counts_in counts.items) log.now.head.first limit bytes (head_end log.now (length bytes)) part.records.items part.stop) }
    ensures refused { IsTrue V.tells → (bytes : List ℕ) → (V.view vol.old).contents (log_name log.now.number) ≡ Some bytes
        → IfErr result (λ fault. IsLogFault fault
        → IsLogRefused (log_file log.now.number) 0 (length counts.items) (counts_in counts.items) log.now.head.first limit bytes (head_end log.now (length bytes)) fault) }
    ensures stays { IsTrue V.tells → Stays (V.view vol.old) (V.view vol.new) }
    ensures kinds { IfErr result (λ fault. (fault ≡ Fault.NoMemory) ⊎ (fault ≡ Fault.ReadFault) ⊎ IsLogFault fault) }
    ensures cause { HasCause Fault.ReadFault (V.faults vol.old) (V.faults vol.new) result }
    ensures once { CountsOnce (V.faults vol.old) (V.faults vol.new) result }
{
    let name = log_name(log.number);
    let file = log_file(log.number);
    let len = vol.log_len(alloc, name).map_err(read_fault)?;
    let mut stop = head_end(log, len);
    let mut number = log.head.first;
    let mut records = Vec::new(alloc);
    while number < limit {
        let window = read_window(alloc, vol, log.number, stop, len, number)?;
        let read = read_log(alloc, file, stop, &window, 0, number, limit, counts)?;
        let count = read.records.len();
        counts = read.counts;
        if count == 0 {
            return Ok(Part {
                records,
                counts,
                stop,
                len,
            });
        }
        number += count as u64;
        stop += read.stop as u64;
        records.append(&mut read.records.into_vec())?;
    }
    Ok(Part {
        records,
        counts,
        stop,
        len,
    })
}

/// A whole frame of the number 2^62, with which the bytes at this offset of a file begin, is refused.
fn refuse_worn(file: FileId, at: u64, bytes: &[u8]) -> Result<(), Fault>
    ensures none { OnOk result (NoFrame (2 ^ 62) bytes.now) }
    ensures worn { IfErr result (λ fault. HasWorn file at bytes.now fault) }
{
    match take_frame(bytes, 0, NUMBER_LIMIT) {
        Taken::Whole { .. } => Err(Fault::Damaged {
            file,
            at,
            kept: NUMBER_LIMIT,
            found: NUMBER_LIMIT,
        }),
        _ => Ok(()),
    }
}

/// The records of the newest log.
fn read_last<V: Volume>(
    alloc: Global,
    vol: &mut V,
    log: &KnownLog,
    counts: Vec<u64>,
) -> Result<Part, Fault>
    requires there { IsTrue V.tells → IsSome ((V.view vol.old).contents (log_name log.now.number)) }
    requires sound { IsSoundHead log.now.head }
    ensures order { IfOk result (λ part. InOrder (length counts.items) (counts_in counts.items) log.now.head.first part.records.items) }
    ensures counts { IfOk result (λ read. (part : ℕ) → get_or read.counts.items part 0 ≡ counts_after (counts_in counts.items) read.records.items part) }
    ensures parts { IfOk result (λ part. length part.counts.items ≡ length counts.items) }
    ensures gives { IsTrue V.tells → (found : Log) → StandsAs (V.view vol.old).contents log.now found
        → IfOk result (λ part. GoesOn (length counts.items) (counts_in counts.items) log.now.head.first (found ∷ []) part.records.items []) }
    ensures refused { IsTrue V.tells → (found : Log) → StandsAs (V.view vol.old).contents log.now found
        → IfErr result (λ fault. IsLogFault fault → IsStreamFault (length counts.items) (counts_in counts.items) log.now.head.first (found ∷ []) fault) }
    ensures stays { IsTrue V.tells → Stays (V.view vol.old) (V.view vol.new) }
    ensures kinds { IfErr result (λ fault. (fault ≡ Fault.NoMemory) ⊎ (fault ≡ Fault.ReadFault) ⊎ IsLogFault fault) }
    ensures cause { HasCause Fault.ReadFault (V.faults vol.old) (V.faults vol.new) result }
    ensures once { CountsOnce (V.faults vol.old) (V.faults vol.new) result }
{
    let first = log.head.first;
    let part = read_up_to(alloc, vol, log, NUMBER_LIMIT, counts)?;
    if first + part.records.len() as u64 == NUMBER_LIMIT {
        let window = read_window(alloc, vol, log.number, part.stop, part.len, NUMBER_LIMIT)?;
        refuse_worn(log_file(log.number), part.stop, &window)?;
    }
    Ok(part)
}

/// The log has the records up to the first of the next, whose head gives the counts behind them.
fn check_next(log: &KnownLog, next: &KnownLog, part: &Part) -> Result<(), Fault>
    requires sound { IsSoundHead log.now.head }
    requires below { log.now.head.first + length part.now.records.items ≤ next.now.head.first }
    requires kept { next.now.head.first < 2 ^ 62 }
    ensures reaches { OnOk result (log.now.head.first + length part.now.records.items ≡ next.now.head.first) }
    ensures continues { OnOk result ((other : ℕ) → get_or next.now.head.before other 0 ≡ get_or part.now.counts.items other 0) }
    ensures refused { IfErr result (λ fault. IsJoinFault log.now next.now part.now.len part.now.records.items part.now.counts.items fault) }
{
    let reached = log.head.first + part.records.len() as u64;
    if reached < next.head.first {
        return Err(Fault::Damaged {
            file: log_file(log.number),
            at: part.len,
            kept: next.head.first - 1,
            found: reached - 1,
        });
    }
    let before = next.head.before.as_slice();
    if !are_same(&part.counts, before) {
        return Err(Fault::Malformed {
            file: log_file(next.number),
            at: 0,
        });
    }
    Ok(())
}

/// The records of a log up to the first of the next.
fn read_before<V: Volume>(
    alloc: Global,
    vol: &mut V,
    log: &KnownLog,
    next: &KnownLog,
    counts: Vec<u64>,
) -> Result<Part, Fault>
    requires there { IsTrue V.tells → IsSome ((V.view vol.old).contents (log_name log.now.number)) }
    requires sound { IsSoundHead log.now.head }
    requires kept { next.now.head.first < 2 ^ 62 }
    requires rise { log.now.head.first ≤ next.now.head.first }
    ensures order { IfOk result (λ part. InOrder (length counts.items) (counts_in counts.items) log.now.head.first part.records.items) }
    ensures counts { IfOk result (λ read. (part : ℕ) → get_or read.counts.items part 0 ≡ counts_after (counts_in counts.items) read.records.items part) }
    ensures parts { IfOk result (λ part. length part.counts.items ≡ length counts.items) }
    ensures reaches { IfOk result (λ part. log.now.head.first + length part.records.items ≡ next.now.head.first) }
    ensures gives { IsTrue V.tells → (found follower : Log) (others : List Log) → StandsAs (V.view vol.old).contents log.now found → log_known follower ≡ next.now
        → IfOk result (λ part. GoesOn (length counts.items) (counts_in counts.items) log.now.head.first (found ∷ follower ∷ others) part.records.items (follower ∷ others)) }
    ensures refused { IsTrue V.tells → (found follower : Log) (others : List Log) → StandsAs (V.view vol.old).contents log.now found → log_known follower ≡ next.now
        → IfErr result (λ fault. IsLogFault fault → IsStreamFault (length counts.items) (counts_in counts.items) log.now.head.first (found ∷ follower ∷ others) fault) }
    ensures stays { IsTrue V.tells → Stays (V.view vol.old) (V.view vol.new) }
    ensures kinds { IfErr result (λ fault. (fault ≡ Fault.NoMemory) ⊎ (fault ≡ Fault.ReadFault) ⊎ IsLogFault fault) }
    ensures cause { HasCause Fault.ReadFault (V.faults vol.old) (V.faults vol.new) result }
    ensures once { CountsOnce (V.faults vol.old) (V.faults vol.new) result }
{
    let part = read_up_to(alloc, vol, log, next.head.first, counts)?;
    check_next(log, next, &part)?;
    Ok(part)
}

/// The records of the log that these others follow.
fn read_records<V: Volume>(
    alloc: Global,
    vol: &mut V,
    log: &KnownLog,
    others: &[KnownLog],
    counts: Vec<u64>,
) -> Result<Part, Fault>
    requires there { IsTrue V.tells → IsSome ((V.view vol.old).contents (log_name log.now.number)) }
    requires sound { AreSound (log.now ∷ others.now) }
    ensures order { IfOk result (λ part. InOrder (length counts.items) (counts_in counts.items) log.now.head.first part.records.items) }
    ensures counts { IfOk result (λ read. (part : ℕ) → get_or read.counts.items part 0 ≡ counts_after (counts_in counts.items) read.records.items part) }
    ensures parts { IfOk result (λ part. length part.counts.items ≡ length counts.items) }
    ensures reaches { IfOk result (λ part. BeginAt (log.now.head.first + length part.records.items) others.now) }
    ensures gives { IsTrue V.tells → (found : Log) (behind : List Log) → StandsAs (V.view vol.old).contents log.now found → AreKnown others.now behind
        → IfOk result (λ part. GoesOn (length counts.items) (counts_in counts.items) log.now.head.first (found ∷ behind) part.records.items behind) }
    ensures refused { IsTrue V.tells → (found : Log) (behind : List Log) → StandsAs (V.view vol.old).contents log.now found → AreKnown others.now behind
        → IfErr result (λ fault. IsLogFault fault → IsStreamFault (length counts.items) (counts_in counts.items) log.now.head.first (found ∷ behind) fault) }
    ensures stays { IsTrue V.tells → Stays (V.view vol.old) (V.view vol.new) }
    ensures kinds { IfErr result (λ fault. (fault ≡ Fault.NoMemory) ⊎ (fault ≡ Fault.ReadFault) ⊎ IsLogFault fault) }
    ensures cause { HasCause Fault.ReadFault (V.faults vol.old) (V.faults vol.new) result }
    ensures once { CountsOnce (V.faults vol.old) (V.faults vol.new) result }
{
    match others.first() {
        Some(next) => read_before(alloc, vol, log, next, counts),
        None => read_last(alloc, vol, log, counts),
    }
}

/// The records of these logs, for as many partitions as there are counts, which are those before the oldest log.
pub(crate) fn read_stream<V: Volume>(
    alloc: Global,
    vol: &mut V,
    known: &[KnownLog],
    low: &[u64],
) -> Result<Stream, Fault>
    requires ready { AreReady known.now low.now }
    requires stand { IsTrue V.tells → (logs : List Log) × AreKnown known.now logs × StandIn (V.view vol.old).contents logs }
    ensures order { IfOk result (λ stream. (logs : List Log) → AreKnown known.now logs
        → InOrder (length low.now) (counts_in low.now) (first_of logs) stream.records.items) }
    ensures none { IfOk result (λ stream. known.now ≡ [] → stream.records.items ≡ []) }
    ensures counts { IfOk result (λ stream. (part : ℕ) → get_or stream.counts.items part 0 ≡ counts_after (counts_in low.now) stream.records.items part) }
    ensures parts { IfOk result (λ stream. length stream.counts.items ≡ length low.now) }
    ensures gives { IsTrue V.tells → IfOk result (λ stream. (logs : List Log) → AreKnown known.now logs → StandIn (V.view vol.old).contents logs
        → Gives (length low.now) (low_of logs) (first_of logs) logs stream.records.items) }
    ensures refused { IsTrue V.tells → IfErr result (λ fault. IsLogFault fault → (logs : List Log) → AreKnown known.now logs → StandIn (V.view vol.old).contents logs
        → IsStreamFault (length low.now) (low_of logs) (first_of logs) logs fault) }
    ensures stays { IsTrue V.tells → Stays (V.view vol.old) (V.view vol.new) }
    ensures kinds { IfErr result (λ fault. (fault ≡ Fault.NoMemory) ⊎ (fault ≡ Fault.ReadFault) ⊎ IsLogFault fault) }
    ensures cause { HasCause Fault.ReadFault (V.faults vol.old) (V.faults vol.new) result }
    ensures once { CountsOnce (V.faults vol.old) (V.faults vol.new) result }
{
    let mut records = Vec::new(alloc);
    let mut counts = low.to_vec(alloc)?;
    let mut rest = known;
    while let Some((log, others)) = rest.split_first() {
        let mut part = read_records(alloc, vol, log, others, counts)?;
        records.append(&mut part.records)?;
        counts = part.counts;
        rest = others;
    }
    Ok(Stream { records, counts })
}
