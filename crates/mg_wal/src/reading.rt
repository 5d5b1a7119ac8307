//! What an opening reads, judges and makes of it, before it changes anything.

ghost use Rattle.std.specs.Prelude.{◌≡◌, ◌+◌, ◌<◌, ◌≤◌, ◌-◌, ◌^◌, ◌⊎◌, ℕ, List, [], length, get_or, None, IfOk, IfErr, IsTrue};
ghost use Rattle.std.specs.List.{AllByRecursion};
ghost use Rattle.mg_disk.specs.Images.{Stays};
ghost use Rattle.mg_faults.specs.Causes.{CountsOnce, HasCause};
ghost use Rattle.mg_wal_format.specs.Logs.{counts_after, InOrder, Log};
ghost use Rattle.mg_wal_format.specs.Records.{counts_in};
ghost use Rattle.mg_wal_format.specs.Recovery.{end_of, first_of, last_number, IsRefused};
ghost use Rattle.mg_wal.specs.Book.{AreKept};
ghost use Rattle.mg_wal.specs.Findings.{AreKnown, AreReady, IsRefusalBy};
ghost use Rattle.mg_wal.specs.Lists.{Books};
ghost use Rattle.mg_wal.specs.Openings.{IsFresh, OpensAs};
ghost use Rattle.mg_wal.specs.States.{ledger_book, opened_basis};
ghost use Rattle.mg_wal.specs.Strays.{AreStrays};

use crate::finding::find_logs;
use crate::frames::Frames;
use crate::heads::{counts_before, judge_heads};
use crate::known::KnownLog;
use crate::ledger::Ledger;
use crate::stream::{Stream, read_stream};
use mg_disk::Volume;
use mg_types::Fault;
use mg_wal_format::Rec;
use std::alloc::{AllocError, Global};

/// What was made of the logs of a volume.
#[derive(Debug, Drop)]
pub(crate) struct Opened {
    pub(crate) ledger: Ledger,
    pub(crate) records: Vec<Rec>,
    // for each partition, how many changes it had before the oldest log
    pub(crate) low: Vec<u64>,
}

/// What the logs of a volume give for so many partitions, and the numbers of the logs that do not count. Nothing is changed.
pub(crate) fn read_volume<V: Volume>(
    alloc: Global,
    vol: &mut V,
    parts: u16,
) -> Result<(Opened, Vec<u64>), Fault>
    ensures parts { IfOk result (λ read. length read.0.low.items ≡ parts) }
    ensures stands { IfOk result (λ read. Books (opened_basis read.0) [] (ledger_book read.0.ledger)) }
    ensures writing { IfOk result (λ read. read.0.ledger.writing ≡ None) }
    ensures staged { IfOk result (λ read. read.0.ledger.staged ≡ None) }
    ensures released { IfOk result (λ read. read.0.ledger.released.items ≡ read.0.low.items) }
    ensures opens { IsTrue V.tells → IfOk result (λ read. OpensAs (V.view vol.old).contents (opened_basis read.0) (ledger_book read.0.ledger)) }
    ensures strays { IsTrue V.tells → IfOk result (λ read. AreStrays (V.view vol.old).contents read.1.items) }
    ensures refused { IsTrue V.tells → IfErr result (λ fault. IsRefusalBy parts fault → IsRefused parts (V.view vol.old).contents fault) }
    ensures stays { IsTrue V.tells → Stays (V.view vol.old) (V.view vol.new) }
    ensures kinds { IfErr result (λ fault. (fault ≡ Fault.NoMemory) ⊎ (fault ≡ Fault.ReadFault) ⊎ IsRefusalBy parts fault) }
    ensures cause { HasCause Fault.ReadFault (V.faults vol.old) (V.faults vol.new) result }
    ensures once { CountsOnce (V.faults vol.old) (V.faults vol.new) result }
{
    let found = find_logs(alloc, vol)?;
    let known = judge_heads(alloc, &found.whole, parts)?;
    let low = counts_before(alloc, &known, parts)?;
    let stream = read_stream(alloc, vol, &known, &low)?;
    let opened = fresh_state(alloc, found.newest, known, low, stream)?;
    Ok((opened, found.strays))
}

/// The number before that of the first record of these logs; 0 without one.
fn number_before(known: &[KnownLog]) -> u64
    ensures { (logs : List Log) → AreKnown known.now logs → result ≡ first_of logs - 1 }
{
    match known.first() {
        Some(log) => log.head.first.saturating_sub(1),
        None => 0,
    }
}

/// The number after this one; 0 without a log.
fn number_behind(known: &[KnownLog], last: u64) -> u64
    requires { last < 2 ^ 62 }
    ensures { (logs : List Log) → AreKnown known.now logs → ((logs ≡ []) × (result ≡ 0)) ⊎ ((0 < length logs) × (result ≡ last + 1)) }
{
    if known.is_empty() { 0 } else { last + 1 }
}

/// The number of the newest of these logs; 0 without one.
fn newest_number(known: &[KnownLog]) -> u64
    ensures { (logs : List Log) → AreKnown known.now logs → result ≡ last_number logs }
{
    match known.last() {
        Some(log) => log.number,
        None => 0,
    }
}

/// What is made of these logs, of which the greatest number is given, and of their records.
fn fresh_state(
    alloc: Global,
    newest: u64,
    known: Vec<KnownLog>,
    low: Vec<u64>,
    stream: Stream,
) -> Result<Opened, AllocError>
    requires ready { AreReady known.items low.items }
    requires few { length low.items < 2 ^ 16 }
    requires kept { AreKept low.items }
    requires below { AllByRecursion (λ log. log.number ≤ newest) known.items }
    requires order { (logs : List Log) → AreKnown known.items logs → InOrder (length low.items) (counts_in low.items) (first_of logs) stream.records.items }
    requires none { known.items ≡ [] → stream.records.items ≡ [] }
    requires counts { (part : ℕ) → get_or stream.counts.items part 0 ≡ counts_after (counts_in low.items) stream.records.items part }
    requires parts { length stream.counts.items ≡ length low.items }
    ensures low { IfOk result (λ opened. opened.low ≡ low) }
    ensures records { IfOk result (λ opened. opened.records ≡ stream.records) }
    ensures stands { IfOk result (λ opened. Books (opened_basis opened) [] (ledger_book opened.ledger)) }
    ensures fresh { IfOk result (λ opened. (logs : List Log) → AreKnown known.items logs → IsFresh (opened_basis opened) logs (ledger_book opened.ledger)) }
    ensures first { IfOk result (λ opened. (logs : List Log) → AreKnown known.items logs → (opened_basis opened).first ≡ first_of logs) }
    ensures reached { IfOk result (λ opened. (logs : List Log) → AreKnown known.items logs → opened.ledger.reach ≡ end_of logs opened.records.items) }
    ensures newest { IfOk result (λ opened. opened.ledger.newest ≡ newest) }
    ensures writing { IfOk result (λ opened. opened.ledger.writing ≡ None) }
    ensures staged { IfOk result (λ opened. opened.ledger.staged ≡ None) }
    ensures released { IfOk result (λ opened. opened.ledger.released.items ≡ opened.low.items) }
{
    let last = number_before(&known) + stream.records.len() as u64;
    let reach = number_behind(&known, last);
    let anchor = newest_number(&known);
    let synced = Vec::from_slice(alloc, &stream.counts)?;
    let released = Vec::from_slice(alloc, &low)?;
    let ledger = Ledger {
        last,
        reach,
        counts: stream.counts,
        synced,
        released,
        staged: None,
        frames: Frames::new(alloc),
        writing: None,
        newest,
        anchor,
        logs: known,
    };
    Ok(Opened {
        ledger,
        records: stream.records,
        low,
    })
}
