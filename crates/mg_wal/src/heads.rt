//! The heads of the logs that were found, judged before anything behind them.

ghost use Rattle.std.specs.Prelude.{◌≡◌, ◌<◌, ◌≤◌, ◌^◌, ◌⊎◌, ℕ, List, IfOk, IfErr, IsTrue, false, get_or, length, map};
ghost use Rattle.mg_wal_format.specs.Heads.{head_bytes, IsSoundHead};
ghost use Rattle.mg_wal_format.specs.Logs.{Log};
ghost use Rattle.mg_wal_format.specs.Recovery.{found_of, low_of, Falls, Found, HasHeads, HasRoom, IsHeadFault, IsHeadsFault, IsNewestFine, IsNewestRefused};
ghost use Rattle.mg_wal.specs.Book.{AreKept};
ghost use Rattle.mg_wal.specs.Findings.{head_frame, AreKnown, IsLogFault, IsRefusalBy};

use crate::finding::HeadFrame;
use crate::known::{KnownLog, log_file};
use mg_types::Fault;
use mg_wal_format::{Head, check_newest, read_head};
use std::alloc::{AllocError, Global};

/// The heads of the logs. First it is judged whether the newest spells a head, and whether so many partitions have room for it;
/// then each head from the oldest on, and that it begins no earlier and counts no fewer partitions than the one before.
pub(crate) fn judge_heads(
    alloc: Global,
    frames: &[HeadFrame],
    parts: u16,
) -> Result<Vec<KnownLog>, Fault>
    ensures heads { IfOk result (λ known. (found : List Found) → map head_frame found ≡ frames.now
        → (logs : List Log) × (found ≡ map found_of logs) × AreKnown known.items logs × HasHeads logs × HasRoom parts logs) }
    ensures refused { IfErr result (λ fault. (fault ≡ Fault.NoMemory) ⊎ (IsRefusalBy parts fault × ((found : List Found) → map head_frame found ≡ frames.now
        → IsNewestRefused parts found fault ⊎ (IsNewestFine parts found × IsHeadsFault found fault)))) }
{
    let Some(newest) = frames.last() else {
        return Ok(Vec::new(alloc));
    };
    let file = log_file(newest.number);
    check_newest(alloc, file, newest.body.as_slice(), parts)?;
    read_heads(alloc, frames)
}

/// The heads of the logs, each judged behind those before it.
fn read_heads(alloc: Global, frames: &[HeadFrame]) -> Result<Vec<KnownLog>, Fault>
    ensures heads { IfOk result (λ known. (found : List Found) → map head_frame found ≡ frames.now
        → (logs : List Log) × (found ≡ map found_of logs) × AreKnown known.items logs × HasHeads logs) }
    ensures refused { IfErr result (λ fault. (fault ≡ Fault.NoMemory) ⊎ (IsLogFault fault × ((found : List Found) → map head_frame found ≡ frames.now
        → IsHeadsFault found fault))) }
{
    let mut known = Vec::new(alloc);
    for frame in frames {
        let head = next_head(alloc, &known, frame)?;
        known.push(KnownLog {
            number: frame.number,
            head,
        })?;
    }
    Ok(known)
}

/// The head of the log behind these.
fn next_head(alloc: Global, before: &[KnownLog], frame: &HeadFrame) -> Result<Head, Fault>
    ensures number { IfOk result (λ _. frame.now.number < 2 ^ 62) }
    ensures head { IfOk result (λ head. IsSoundHead head × (frame.now.body ≡ head_bytes head)) }
    ensures rises { IfOk result (λ head. (logs : List Log) → AreKnown before.now logs → Falls logs head → ⊥) }
    ensures refused { IfErr result (λ fault. (fault ≡ Fault.NoMemory) ⊎ (IsLogFault fault × ((logs : List Log) (found : Found) → AreKnown before.now logs
        → head_frame found ≡ frame.now → IsHeadFault logs found fault))) }
{
    let file = log_file(frame.number);
    let head = read_head(alloc, file, frame.body.as_slice())?;
    if falls(before, &head) {
        return Err(Fault::Malformed { file, at: 0 });
    }
    Ok(head)
}

/// Whether the head begins earlier than the last of these logs, or counts fewer partitions.
fn falls(before: &[KnownLog], head: &Head) -> bool
    ensures yes { IsTrue result → (logs : List Log) → AreKnown before.now logs → Falls logs head.now }
    ensures no { result ≡ false → (logs : List Log) → AreKnown before.now logs → Falls logs head.now → ⊥ }
{
    let Some(last) = before.last() else {
        return false;
    };
    head.first < last.head.first || head.before.len() < last.head.before.len()
}

/// For each partition, how many changes it had before the oldest of these logs.
pub(crate) fn counts_before(
    alloc: Global,
    known: &[KnownLog],
    parts: u16,
) -> Result<Vec<u64>, AllocError>
    ensures parts { IfOk result (λ low. length low.items ≡ parts) }
    ensures low { IfOk result (λ low. (logs : List Log) → AreKnown known.now logs → HasRoom parts logs → HasHeads logs
        → (part : ℕ) → get_or low.items part 0 ≡ low_of logs part) }
    ensures kept { IfOk result (λ low. (logs : List Log) → AreKnown known.now logs → HasHeads logs → AreKept low.items) }
{
    let mut low = Vec::from_slice(alloc, oldest_counts(known))?;
    low.resize(usize::from(parts), 0)?;
    Ok(low)
}

/// The counts in the head of the oldest log; none without a log.
fn oldest_counts(known: &[KnownLog]) -> &[u64]
    ensures counts { (logs : List Log) → AreKnown known.now logs → (part : ℕ) → get_or result.now part 0 ≡ low_of logs part }
    ensures room { (parts : ℕ) (logs : List Log) → AreKnown known.now logs → HasRoom parts logs → HasHeads logs → length result.now ≤ parts }
    ensures kept { (logs : List Log) → AreKnown known.now logs → HasHeads logs → AreKept result.now }
{
    match known.first() {
        Some(oldest) => oldest.head.before.as_slice(),
        None => &[],
    }
}
