//! Openings of volumes in memory: after crashes, and of logs that were set by hand.

ghost use Rattle.std.specs.Prelude.{◌≡◌, ◌<◌, ◌^◌, IfOk, IfSome};
ghost use Rattle.mg_wal_format.specs.Records.{mark_of};

use crate::fixtures::{frames, has_log, log_numbers, opened, refused, set, volume_with};
use crate::known::{log_file, log_name};
use crate::receipt::Receipt;
use crate::state::WalState;
use mg_disk::Volume;
use mg_memdisk::MemVolume;
use mg_model::Change;
use mg_types::Fault;
use mg_wal_format::Rec;
use std::alloc::Global;
use std::test::Fail;

/// The worked log of docs/formats.md. Its digests were computed with another program.
const WORKED: &[u8] =
    b"\0\0\0\x13\0\0\0\0\0\0\0\x01\x01\0\0\0\0\0\0\0\x01\0\x01\0\0\0\0\0\0\0\0\xfa\x45\xed\xa8\x42\xba\xdc\x53\
    \0\0\0\x12\0\0\0\0\0\0\0\x01\0\0\0\0\0\0\0\0\0\x01\x01\x01a\0\0\0\x01x\xf7\x3d\xaa\x31\xdc\xec\x04\x37\
    \0\0\0\x0b\0\0\0\0\0\0\0\x02\0\0\0\0\0\0\0\0\0\x02\x03\xfb\x3c\x43\x8f\x1d\xca\x90\x62\
    \0\0\0\x13\0\0\0\0\0\0\0\x03\0\0\0\0\0\0\0\0\0\x03\x05\0\0\0\0\0\0\0\x01\xfe\x3f\x50\xd8\x26\x76\x02\x89";

/// The change of this record of the worked log: a set of `a` to `x`, a mark, or a rollback to it.
fn worked(alloc: Global, number: u64) -> Result<Change, Fail>
    ensures { IfOk result (λ change. IfSome (mark_of change) (λ mark. mark < 2 ^ 62)) }
{
    match number {
        1 => set(alloc, b"a", b"x"),
        2 => Ok(Change::Mark),
        _ => Ok(Change::Back { mark: 1 }),
    }
}

fn is_same(one: &Change, other: &Change) -> bool {
    match (one, other) {
        (Change::Set { key: a, doc: b }, Change::Set { key: c, doc: d }) => {
            a == c && b.bytes() == d.bytes()
        }
        (Change::Mark, Change::Mark) | (Change::Clear, Change::Clear) => true,
        (Change::Back { mark: a }, Change::Back { mark: b }) => a == b,
        _ => false,
    }
}

/// Whether the records are those of the worked log behind this number.
fn are_worked(alloc: Global, before: u64, records: &[Rec]) -> Result<bool, Fail> {
    let mut number = before;
    for rec in records {
        number = number.wrapping_add(1);
        let numbered = rec.number == number && rec.part == 0 && rec.change == number;
        if !numbered || !is_same(&rec.what, &worked(alloc, number)?) {
            return Ok(false);
        }
    }
    Ok(true)
}

/// Puts the change into the list, and answers its number there.
fn add(state: &mut WalState<MemVolume>, part: u16, what: &Change) -> Result<u64, Fault>
    requires { IfSome (mark_of what.now) (λ mark. mark < 2 ^ 62) }
{
    if usize::from(part) >= state.ledger.counts.len() {
        return Err(Fault::BadWords);
    }
    state.reserve(part, what)?;
    Ok(state.push())
}

fn sync(alloc: Global, state: &mut WalState<MemVolume>, part: u16) -> Result<Receipt, Fault> {
    if usize::from(part) >= state.ledger.counts.len() {
        return Err(Fault::BadWords);
    }
    state.sync(alloc, part)
}

fn release(
    alloc: Global,
    state: &mut WalState<MemVolume>,
    part: u16,
    change: u64,
) -> Result<(), Fault> {
    let counts = &state.ledger.counts;
    if usize::from(part) >= counts.len() || counts[usize::from(part)] < change {
        return Err(Fault::BadWords);
    }
    state.release(alloc, part, change)
}

#[test]
fn one_partition_and_one_record(rt: HostRuntime) -> Result<(), Fail> {
    let alloc = rt.alloc();
    let vol = MemVolume::new(alloc, Vec::new(alloc));
    let (mut state, records, low) = opened(alloc, vol, 1)?;
    assert!(rt; state.last() == 0 && records.is_empty() && low.as_slice() == [0].as_slice());
    assert!(rt; add(&mut state, 0, &worked(alloc, 1)?)? == 1);
    let receipt = sync(alloc, &mut state, 0)?;
    assert!(rt; receipt.through() == 1 && receipt.part() == 0 && receipt.change() == 1);
    release(alloc, &mut state, 0, 1)?;
    let vol = state.into_volume();
    let (mut state, records, low) = opened(alloc, vol.crash(alloc, b"")?, 1)?;
    assert!(rt; records.len() == 1 && are_worked(alloc, 0, &records)?);
    assert!(rt; state.last() == 1 && low.as_slice() == [0].as_slice());
    release(alloc, &mut state, 0, 1)?;
    let mut vol = state.into_volume();
    assert!(rt; has_log(alloc, &mut vol, 1, &WORKED[..77])?);
    Ok(())
}

/// The volume after so many syncs, and the record up to which one of them said that all is synced. Before each of the first three
/// one record more of the worked log was put into the list. One call of the volume fails. The opening asks it for its names; then
/// a log is made, appended to and synced, and appended to and synced again.
fn written(alloc: Global, failing: u64, syncs: u64) -> Result<(MemVolume, u64), Fail> {
    let vol = volume_with(alloc, &[failing], &[])?;
    let (mut state, _, _) = opened(alloc, vol, 1)?;
    let mut through = 0;
    for number in 1..=syncs {
        if number < 4 {
            add(&mut state, 0, &worked(alloc, number)?)?;
        }
        if let Ok(receipt) = sync(alloc, &mut state, 0) {
            through = receipt.through();
        }
    }
    Ok((state.into_volume(), through))
}

/// The choice of a crash that begins with these bytes, and then puts these bytes behind a log.
fn choice_of(alloc: Global, front: &[u8], bytes: &[u8]) -> Result<Vec<u8>, Fail> {
    let mut choice = front.to_vec(alloc)?;
    for byte in bytes {
        choice.push(1)?;
        choice.push(*byte)?;
    }
    Ok(choice)
}

/// The choice of a crash behind two syncs, of which the second failed: so many bytes of its append are left, and behind them as
/// many other bytes as there is room for, or none.
fn cut_at(alloc: Global, cut: usize, other: Option<u8>) -> Result<Vec<u8>, Fail> {
    let mut choice = vec![in alloc; 0u8]?;
    for (index, byte) in WORKED[77..].iter().enumerate() {
        let left = if index < cut {
            Some(*byte)
        } else {
            other.map(|other| *byte ^ other)
        };
        if let Some(left) = left {
            choice.push(1)?;
            choice.push(left)?;
        }
    }
    Ok(choice)
}

/// The volume once the first record of the worked log was synced, and the other two were appended in a sync that failed.
fn appended(alloc: Global) -> Result<MemVolume, Fail> {
    let vol = volume_with(alloc, &[6], &[])?;
    let (mut state, _, _) = opened(alloc, vol, 1)?;
    add(&mut state, 0, &worked(alloc, 1)?)?;
    sync(alloc, &mut state, 0)?;
    add(&mut state, 0, &worked(alloc, 2)?)?;
    add(&mut state, 0, &worked(alloc, 3)?)?;
    if sync(alloc, &mut state, 0) != Err(Fault::WriteFault) {
        return Err(Fail::from("the sync did not fail"));
    }
    Ok(state.into_volume())
}

#[test]
fn a_crash_leaves_the_synced_and_the_whole_records(rt: HostRuntime) -> Result<(), Fail> {
    let alloc = rt.alloc();
    let vol = appended(alloc)?;
    for cut in 0..=70usize {
        let (whole, last) = match cut {
            0..31 => (1, 1),
            31..70 => (2, 2),
            _ => (3, 3),
        };
        for other in [None, Some(1u8), Some(255)] {
            let choice = cut_at(alloc, cut, other)?;
            let left = vol.crash(alloc, &choice)?;
            let (state, records, low) = opened(alloc, left, 1)?;
            assert!(rt; records.len() == whole, "{cut}");
            assert!(rt; are_worked(alloc, 0, &records)?);
            assert!(rt; state.last() == last && low.as_slice() == [0].as_slice());
        }
    }
    Ok(())
}

/// What an opening gives after a crash by this choice: how many records, where they are the first of the worked log.
fn left_by(alloc: Global, vol: &MemVolume, choice: &[u8]) -> Result<Option<u64>, Fail> {
    let (state, records, low) = opened(alloc, vol.crash(alloc, choice)?, 1)?;
    let count = records.len() as u64;
    let same = are_worked(alloc, 0, &records)? && low.as_slice() == [0].as_slice();
    Ok((same && state.last() == count).then_some(count))
}

#[test]
fn a_failed_call_leaves_its_bytes_or_not(rt: HostRuntime) -> Result<(), Fail> {
    let alloc = rt.alloc();
    let synced = [0u8].as_slice();
    for (failing, syncs, front, bytes, count) in [
        // the log that was not made is there, empty
        (2, 1, [1u8].as_slice(), &WORKED[..0], 0),
        (2, 1, &[], &WORKED[..0], 0),
        // the append that failed leaves half of its bytes, or some of them, or none
        (3, 1, &[], &WORKED[..38], 0),
        (3, 1, &[], &WORKED[..12], 0),
        (3, 1, &[], &WORKED[..0], 0),
        (5, 2, synced, &WORKED[77..92], 1),
        (5, 2, synced, &WORKED[..0], 1),
        // what the sync that failed did not make lasting is there, or its head alone, or none
        (4, 1, &[], &WORKED[..77], 1),
        (4, 1, &[], &WORKED[..39], 0),
        (4, 1, &[], &WORKED[..0], 0),
        (6, 2, synced, &WORKED[77..108], 2),
        (6, 2, synced, &WORKED[77..107], 1),
        (6, 2, synced, &WORKED[..0], 1),
    ] {
        let (vol, _) = written(alloc, failing, syncs)?;
        let choice = choice_of(alloc, front, bytes)?;
        assert!(rt;
            left_by(alloc, &vol, &choice)? == Some(count),
            "{failing}, {choice:?}"
        );
    }
    Ok(())
}

/// Whether an opening after a crash gives a front of the list, with all that is synced and no more than was pushed.
fn keeps_synced(
    alloc: Global,
    vol: &MemVolume,
    choice: &[u8],
    through: u64,
    pushed: u64,
) -> Result<bool, Fail> {
    match left_by(alloc, vol, choice)? {
        Some(count) => Ok(through <= count && count <= pushed),
        None => Ok(false),
    }
}

/// Whether this holds of a crash that leaves nothing in doubt, and of one that leaves all names in doubt and other bytes.
fn keeps_synced_either_way(
    alloc: Global,
    vol: &MemVolume,
    through: u64,
    pushed: u64,
) -> Result<bool, Fail> {
    let none = keeps_synced(alloc, vol, b"", through, pushed)?;
    let all = keeps_synced(alloc, vol, &[1; 400], through, pushed)?;
    Ok(none && all)
}

#[test]
fn what_is_synced_outlives_a_failed_call_and_a_crash(rt: HostRuntime) -> Result<(), Fail> {
    let alloc = rt.alloc();
    for failing in 2..=8u64 {
        for (syncs, pushed) in [(1u64, 1u64), (2, 2), (3, 3), (4, 3)] {
            let (vol, through) = written(alloc, failing, syncs)?;
            assert!(rt;
                keeps_synced_either_way(alloc, &vol, through, pushed)?,
                "{failing}, {syncs}"
            );
        }
    }
    Ok(())
}

#[test]
fn a_log_is_begun_behind_a_failed_sync(rt: HostRuntime) -> Result<(), Fail> {
    let alloc = rt.alloc();
    // a failed append and a failed sync, of the first log and behind a record that it has
    for (failing, syncs) in [(3u64, 2u64), (4, 2), (5, 3), (6, 3)] {
        let (mut vol, through) = written(alloc, failing, syncs)?;
        assert!(rt; through == syncs);
        assert!(rt; log_numbers(alloc, &mut vol)?.as_slice() == [1, 2].as_slice());
        assert!(rt; keeps_synced_either_way(alloc, &vol, through, syncs)?);
    }
    Ok(())
}

/// A volume whose removal of the first log failed. The first log has one record of the worked log, the second the other two, and
/// its head counts one change that is released.
fn kept_by_failure(alloc: Global) -> Result<MemVolume, Fail> {
    // the names are asked for, the first log is made by three calls, an append fails, and the second log is made by three calls
    let vol = volume_with(alloc, &[5, 9], &[])?;
    let (mut state, _, _) = opened(alloc, vol, 1)?;
    add(&mut state, 0, &worked(alloc, 1)?)?;
    sync(alloc, &mut state, 0)?;
    add(&mut state, 0, &worked(alloc, 2)?)?;
    let failed = sync(alloc, &mut state, 0);
    add(&mut state, 0, &worked(alloc, 3)?)?;
    sync(alloc, &mut state, 0)?;
    let released = release(alloc, &mut state, 0, 1);
    if failed != Err(Fault::WriteFault) || released != Err(Fault::WriteFault) {
        return Err(Fail::from("the calls did not fail"));
    }
    Ok(state.into_volume())
}

#[test]
fn a_failed_removal_leaves_the_log_or_not(rt: HostRuntime) -> Result<(), Fail> {
    let alloc = rt.alloc();
    let vol = kept_by_failure(alloc)?;
    // behind the bytes of the three appends, of which none are left but those that a sync made lasting
    for (choice, before, count, logs) in [
        ([0u8, 0, 0, 0], 0, 3, [1u64, 2].as_slice()),
        ([0, 0, 0, 1], 1, 2, &[2]),
    ] {
        let mut left = vol.crash(alloc, &choice)?;
        assert!(rt; log_numbers(alloc, &mut left)?.as_slice() == logs);
        let (state, records, low) = opened(alloc, left, 1)?;
        assert!(rt; records.len() == count && are_worked(alloc, before, &records)?);
        assert!(rt; state.last() == 3 && low.as_slice() == [before].as_slice());
    }
    Ok(())
}

/// The head of a log that begins with record 1, for one partition.
const HEAD: &[u8] = b"\x01\0\0\0\0\0\0\0\x01\0\x01\0\0\0\0\0\0\0\0";

/// The same behind one record, behind two, and behind three.
const BEHIND_ONE: &[u8] = b"\x01\0\0\0\0\0\0\0\x02\0\x01\0\0\0\0\0\0\0\x01";

const BEHIND_TWO: &[u8] = b"\x01\0\0\0\0\0\0\0\x03\0\x01\0\0\0\0\0\0\0\x02";

const BEHIND_THREE: &[u8] = b"\x01\0\0\0\0\0\0\0\x04\0\x01\0\0\0\0\0\0\0\x03";

/// Heads behind two records that count one change too few and one too many.
const ONE_TOO_FEW: &[u8] = b"\x01\0\0\0\0\0\0\0\x03\0\x01\0\0\0\0\0\0\0\x01";

const ONE_TOO_MANY: &[u8] = b"\x01\0\0\0\0\0\0\0\x03\0\x01\0\0\0\0\0\0\0\x03";

/// The head of a log that begins with record 1, for two partitions.
const OF_TWO: &[u8] = b"\x01\0\0\0\0\0\0\0\x01\0\x02\0\0\0\0\0\0\0\0\0\0\0\0\0\0\0\0";

/// The same behind one record of the first partition.
const OF_TWO_BEHIND_ONE: &[u8] = b"\x01\0\0\0\0\0\0\0\x02\0\x02\0\0\0\0\0\0\0\x01\0\0\0\0\0\0\0\0";

/// A head whose first number is 0.
const FIRST_0: &[u8] = b"\x01\0\0\0\0\0\0\0\0\0\x01\0\0\0\0\0\0\0\0";

/// What is no head, by its format.
const FORMAT_2: &[u8] = b"\x02\0\0\0\0\0\0\0\x01\0\x01\0\0\0\0\0\0\0\0";

/// Heads whose first number is 2^62 and one less.
const FIRST_WORN: &[u8] = b"\x01\x40\0\0\0\0\0\0\0\0\x01\0\0\0\0\0\0\0\0";

const FIRST_LAST: &[u8] = b"\x01\x3f\xff\xff\xff\xff\xff\xff\xff\0\x01\0\0\0\0\0\0\0\0";

/// A head with 2^62 + 5 changes.
const COUNT_WORN: &[u8] = b"\x01\0\0\0\0\0\0\0\x01\0\x01\x40\0\0\0\0\0\0\x05";

/// The records of the worked log: a set of `a` to `x`, a mark and a rollback to the length 1.
const SET: &[u8] = b"\0\0\0\0\0\0\0\0\0\x01\x01\x01a\0\0\0\x01x";

const MARK: &[u8] = b"\0\0\0\0\0\0\0\0\0\x02\x03";

const BACK: &[u8] = b"\0\0\0\0\0\0\0\0\0\x03\x05\0\0\0\0\0\0\0\x01";

/// A clear as the fourth change.
const FOURTH: &[u8] = b"\0\0\0\0\0\0\0\0\0\x04\x06";

/// A mark as the first change.
const FIRST_MARK: &[u8] = b"\0\0\0\0\0\0\0\0\0\x01\x03";

/// A mark of the second partition.
const OTHER_PART: &[u8] = b"\0\x01\0\0\0\0\0\0\0\x01\x03";

/// Records whose change is 2^62, and whose mark is.
const CHANGE_WORN: &[u8] = b"\0\0\x40\0\0\0\0\0\0\0\x03";

const MARK_WORN: &[u8] = b"\0\0\0\0\0\0\0\0\0\x02\x04\x40\0\0\0\0\0\0\0";

/// Records that are wrong by the partition and the change, and by the change and the mark.
const OTHER_PART_WORN: &[u8] = b"\0\x01\x40\0\0\0\0\0\0\0\x03";

const THIRD_MARK_WORN: &[u8] = b"\0\0\0\0\0\0\0\0\0\x03\x04\x40\0\0\0\0\0\0\0";

/// Logs of these frames, each with its number.
fn spelled(alloc: Global, logs: &[(u64, &[(u64, &[u8])])]) -> Result<Vec<(u64, Vec<u8>)>, Fail> {
    let mut all = Vec::new(alloc);
    for (number, entries) in logs {
        all.push((*number, frames(alloc, entries)?))?;
    }
    Ok(all)
}

/// Whether the volume has these logs and no other name.
fn has_only(alloc: Global, vol: &mut MemVolume, logs: &[(u64, Vec<u8>)]) -> Result<bool, Fail> {
    if vol.names(alloc)?.len() != logs.len() {
        return Ok(false);
    }
    for (number, bytes) in logs {
        if !has_log(alloc, vol, *number, bytes)? {
            return Ok(false);
        }
    }
    Ok(true)
}

/// With which fault a volume of these logs is refused, where the refusal leaves them as they are.
fn refusal(alloc: Global, parts: u16, logs: &[(u64, Vec<u8>)]) -> Result<Option<Fault>, Fail> {
    let vol = volume_with(alloc, &[], logs)?;
    let Some(mut error) = refused(alloc, vol, parts)? else {
        return Ok(None);
    };
    let same = has_only(alloc, &mut error.vol, logs)?;
    Ok(same.then_some(error.fault))
}

/// With which fault a volume of logs of these frames is refused.
fn refusal_of(
    alloc: Global,
    parts: u16,
    logs: &[(u64, &[(u64, &[u8])])],
) -> Result<Option<Fault>, Fail> {
    refusal(alloc, parts, &spelled(alloc, logs)?)
}

fn malformed(number: u64, at: u64) -> Fault {
    Fault::Malformed {
        file: log_file(number),
        at,
    }
}

fn damaged(number: u64, at: u64, kept: u64, found: u64) -> Fault {
    Fault::Damaged {
        file: log_file(number),
        at,
        kept,
        found,
    }
}

/// The first number that no file may keep.
const LIMIT: u64 = 1 << 62;

#[test]
fn heads_are_refused(rt: HostRuntime) -> Result<(), Fail> {
    let alloc = rt.alloc();
    let cases: [(u16, &[(u64, &[(u64, &[u8])])], Fault); 14] = [
        (1, &[(1, &[(1, FORMAT_2)])], malformed(1, 0)),
        (1, &[(1, &[(1, FIRST_0)])], malformed(1, 0)),
        (1, &[(1, &[(1, FIRST_WORN)])], damaged(1, 0, LIMIT, LIMIT)),
        (
            1,
            &[(1, &[(1, COUNT_WORN)])],
            damaged(1, 0, LIMIT + 5, LIMIT),
        ),
        (
            1,
            &[(LIMIT, &[(LIMIT, HEAD)])],
            damaged(LIMIT, 0, LIMIT, LIMIT),
        ),
        // a head that begins before the one before it, and one that has fewer partitions
        (
            1,
            &[(1, &[(1, BEHIND_TWO)]), (2, &[(2, BEHIND_ONE)])],
            malformed(2, 0),
        ),
        (
            2,
            &[(1, &[(1, OF_TWO)]), (2, &[(2, HEAD)])],
            malformed(2, 0),
        ),
        // two partitions, of which fewer are asked for, whatever else is wrong
        (
            1,
            &[(1, &[(1, OF_TWO)])],
            Fault::FewerParts { asked: 1, kept: 2 },
        ),
        (
            0,
            &[(1, &[(1, FIRST_0)]), (2, &[(2, OF_TWO)])],
            Fault::FewerParts { asked: 0, kept: 2 },
        ),
        (
            1,
            &[
                (1, &[(1, HEAD), (1, MARK)]),
                (2, &[(2, BEHIND_TWO)]),
                (LIMIT, &[(LIMIT, OF_TWO), (1, CHANGE_WORN)]),
            ],
            Fault::FewerParts { asked: 1, kept: 2 },
        ),
        // the newest spells no head; else the oldest is judged first
        (
            1,
            &[(1, &[(1, FIRST_0)]), (2, &[(2, FORMAT_2)])],
            malformed(2, 0),
        ),
        (
            1,
            &[(1, &[(1, FIRST_0)]), (2, &[(2, FIRST_WORN)])],
            malformed(1, 0),
        ),
        (
            1,
            &[
                (1, &[(1, BEHIND_TWO)]),
                (2, &[(2, BEHIND_ONE)]),
                (3, &[(3, COUNT_WORN)]),
            ],
            malformed(2, 0),
        ),
        // a head that falls, before a record of an older log that is none
        (
            1,
            &[
                (1, &[(1, HEAD), (1, MARK)]),
                (2, &[(2, BEHIND_ONE)]),
                (3, &[(3, HEAD)]),
            ],
            malformed(3, 0),
        ),
    ];
    for (parts, logs, fault) in &cases {
        let told = refusal_of(alloc, *parts, logs)?;
        assert!(rt; told == Some(*fault), "{told:?}, {fault:?}");
    }
    Ok(())
}

#[test]
fn records_are_refused(rt: HostRuntime) -> Result<(), Fail> {
    let alloc = rt.alloc();
    let cases: [(&[(u64, &[(u64, &[u8])])], Fault); 14] = [
        // the next change twice, and one too many
        (&[(1, &[(1, HEAD), (1, MARK)])], malformed(1, 39)),
        (&[(1, &[(1, HEAD), (1, SET), (2, BACK)])], malformed(1, 77)),
        (
            &[
                (1, &[(1, HEAD), (1, SET), (2, BACK)]),
                (2, &[(2, BEHIND_TWO)]),
            ],
            malformed(1, 77),
        ),
        (
            &[
                (1, &[(1, HEAD), (1, SET)]),
                (2, &[(2, BEHIND_ONE), (2, MARK), (3, MARK)]),
            ],
            malformed(2, 70),
        ),
        (&[(1, &[(1, HEAD), (1, OTHER_PART)])], malformed(1, 39)),
        (&[(1, &[(1, HEAD), (1, b"")])], malformed(1, 39)),
        // numbers of 2^62: of the change, of the mark, and of the frame
        (
            &[(1, &[(1, HEAD), (1, CHANGE_WORN)])],
            damaged(1, 39, LIMIT, LIMIT),
        ),
        (
            &[(1, &[(1, HEAD), (1, SET), (2, MARK_WORN)])],
            damaged(1, 77, LIMIT, LIMIT),
        ),
        (
            &[(1, &[(1, FIRST_LAST), (LIMIT - 1, FIRST_MARK), (LIMIT, b"")])],
            damaged(1, 70, LIMIT, LIMIT),
        ),
        // two faults of one record, of which the first in their order is told
        (&[(1, &[(1, HEAD), (1, OTHER_PART_WORN)])], malformed(1, 39)),
        (&[(1, &[(1, HEAD), (1, THIRD_MARK_WORN)])], malformed(1, 39)),
        (
            &[(1, &[(1, HEAD), (1, SET), (2, MARK_WORN), (3, SET)])],
            damaged(1, 77, LIMIT, LIMIT),
        ),
        // a record of the older log, before the counts that the next head gives and before the records of that log
        (
            &[
                (1, &[(1, HEAD), (1, SET), (2, BACK)]),
                (2, &[(2, ONE_TOO_MANY)]),
            ],
            malformed(1, 77),
        ),
        (
            &[
                (1, &[(1, HEAD), (1, CHANGE_WORN)]),
                (2, &[(2, BEHIND_ONE), (2, SET)]),
            ],
            damaged(1, 39, LIMIT, LIMIT),
        ),
    ];
    for (logs, fault) in &cases {
        let told = refusal_of(alloc, 1, logs)?;
        assert!(rt; told == Some(*fault), "{told:?}, {fault:?}");
    }
    Ok(())
}

#[test]
fn logs_that_do_not_join_are_refused(rt: HostRuntime) -> Result<(), Fail> {
    let alloc = rt.alloc();
    let cases: [(&[(u64, &[(u64, &[u8])])], Fault); 7] = [
        // the log ends before the next begins
        (
            &[(1, &[(1, HEAD)]), (2, &[(2, BEHIND_ONE)])],
            damaged(1, 39, 1, 0),
        ),
        (
            &[(1, &[(1, HEAD), (1, SET)]), (2, &[(2, BEHIND_TWO)])],
            damaged(1, 77, 2, 1),
        ),
        // it has a frame of another number behind its last record
        (
            &[
                (1, &[(1, HEAD), (1, SET), (3, BACK)]),
                (2, &[(2, BEHIND_THREE)]),
            ],
            damaged(1, 116, 3, 1),
        ),
        // the next head counts one change too few, and one too many
        (
            &[
                (1, &[(1, HEAD), (1, SET), (2, MARK)]),
                (2, &[(2, ONE_TOO_FEW)]),
            ],
            malformed(2, 0),
        ),
        (
            &[
                (1, &[(1, HEAD), (1, SET), (2, MARK)]),
                (2, &[(2, ONE_TOO_MANY)]),
            ],
            malformed(2, 0),
        ),
        // both at once, and the end of the first log before a record of the next that is none
        (
            &[(1, &[(1, HEAD), (1, SET)]), (2, &[(2, ONE_TOO_FEW)])],
            damaged(1, 77, 2, 1),
        ),
        (
            &[
                (1, &[(1, HEAD), (1, SET)]),
                (2, &[(2, BEHIND_TWO), (3, CHANGE_WORN)]),
            ],
            damaged(1, 77, 2, 1),
        ),
    ];
    for (logs, fault) in &cases {
        let told = refusal_of(alloc, 1, logs)?;
        assert!(rt; told == Some(*fault), "{told:?}, {fault:?}");
    }
    // behind the first record stand bytes of the second, and its end is another
    let torn = WORKED[..100].to_vec(alloc)?;
    let next = frames(alloc, &[(2, BEHIND_TWO)])?;
    let told = refusal(alloc, 1, &vec![in alloc; (1, torn), (2, next)]?)?;
    assert!(rt; told == Some(damaged(1, 100, 2, 1)), "{told:?}");
    Ok(())
}

/// How many records of the worked log a volume of logs of these frames gives for so many partitions.
fn count_of(
    alloc: Global,
    parts: u16,
    logs: &[(u64, &[(u64, &[u8])])],
) -> Result<Option<usize>, Fail> {
    let vol = volume_with(alloc, &[], &spelled(alloc, logs)?)?;
    let (_, records, low) = opened(alloc, vol, parts)?;
    let zeros = vec![in alloc; 0u64; usize::from(parts)]?;
    let same = are_worked(alloc, 0, &records)? && low == zeros;
    Ok(same.then_some(records.len()))
}

#[test]
fn what_stands_behind_is_not_looked_at(rt: HostRuntime) -> Result<(), Fail> {
    let alloc = rt.alloc();
    let cases: [(u16, &[(u64, &[(u64, &[u8])])], usize); 6] = [
        (3, &[], 0),
        (3, &[(7, &[(7, HEAD), (1, SET), (3, BACK)])], 1),
        // what the next log has too, and there is none
        (
            1,
            &[
                (1, &[(1, HEAD), (1, SET), (2, CHANGE_WORN)]),
                (2, &[(2, BEHIND_ONE), (2, MARK), (3, BACK)]),
            ],
            3,
        ),
        // a log whose records all stand in the next, and a partition more
        (
            1,
            &[(1, &[(1, HEAD), (1, MARK)]), (4, &[(4, HEAD), (1, SET)])],
            1,
        ),
        (
            2,
            &[
                (1, &[(1, HEAD), (1, SET)]),
                (2, &[(2, OF_TWO_BEHIND_ONE), (2, MARK)]),
            ],
            2,
        ),
        (1, &[(1, &[(1, HEAD)])], 0),
    ];
    for (parts, logs, count) in &cases {
        let told = count_of(alloc, *parts, logs)?;
        assert!(rt; told == Some(*count), "{told:?}, {count}");
    }
    Ok(())
}

/// A log with a whole head, and logs without one: cut short, with another number, with another digest, and empty.
fn with_strays(alloc: Global) -> Result<Vec<(u64, Vec<u8>)>, Fail> {
    let mut broken = WORKED.to_vec(alloc)?;
    broken[38] = 0x54;
    Ok(vec![in alloc;
        (2, WORKED[..38].to_vec(alloc)?),
        (
            3,
            frames(alloc, &[(3, HEAD), (1, SET), (2, MARK), (3, BACK)])?
        ),
        (4, WORKED.to_vec(alloc)?),
        (5, broken),
        (6, Vec::new(alloc)),
    ]?)
}

#[test]
fn strays_are_passed_over_and_removed(rt: HostRuntime) -> Result<(), Fail> {
    let alloc = rt.alloc();
    let vol = volume_with(alloc, &[], &with_strays(alloc)?)?;
    let (mut state, records, low) = opened(alloc, vol, 1)?;
    assert!(rt; records.len() == 3 && are_worked(alloc, 0, &records)?);
    assert!(rt; state.last() == 3 && low.as_slice() == [0].as_slice());
    assert!(rt; add(&mut state, 0, &Change::Clear)? == 4);
    sync(alloc, &mut state, 0)?;
    // the numbers of strays are used up
    let mut vol = state.into_volume();
    assert!(rt; log_numbers(alloc, &mut vol)?.as_slice() == [3, 7].as_slice());
    let want = frames(alloc, &[(7, BEHIND_THREE), (4, FOURTH)])?;
    assert!(rt; has_log(alloc, &mut vol, 7, &want)?);
    Ok(())
}

#[test]
fn a_refusal_leaves_strays(rt: HostRuntime) -> Result<(), Fail> {
    let alloc = rt.alloc();
    let mut logs = with_strays(alloc)?;
    logs.push((7, frames(alloc, &[(7, FIRST_0)])?))?;
    assert!(rt; refusal(alloc, 1, &logs)? == Some(malformed(7, 0)));
    Ok(())
}

/// The refusal of a volume with two logs and a stray, whose call of this number fails; six calls made the logs.
fn failing_at(alloc: Global, call: u64) -> Result<Option<(Fault, MemVolume)>, Fail> {
    let second = frames(alloc, &[(2, BEHIND_ONE), (2, MARK), (3, BACK)])?;
    let logs = vec![in alloc;
        (1, WORKED.to_vec(alloc)?),
        (2, second),
        (3, Vec::new(alloc)),
    ]?;
    let vol = volume_with(alloc, &[call], &logs)?;
    match refused(alloc, vol, 1)? {
        Some(error) => Ok(Some((error.fault, error.vol))),
        None => Ok(None),
    }
}

/// Whether a volume opens with the three records after a crash either way, and its strays are gone then.
fn opens_with_all(alloc: Global, vol: &MemVolume) -> Result<bool, Fail> {
    for choice in [0u8, 1] {
        let (state, records, _) = opened(alloc, vol.crash(alloc, &[choice])?, 1)?;
        if records.len() != 3 || !are_worked(alloc, 0, &records)? {
            return Ok(false);
        }
        let mut vol = state.into_volume();
        if log_numbers(alloc, &mut vol)?.as_slice() != [1, 2].as_slice() {
            return Ok(false);
        }
    }
    Ok(true)
}

#[test]
fn each_failed_call_is_told_and_the_volume_opens_again(rt: HostRuntime) -> Result<(), Fail> {
    let alloc = rt.alloc();
    let mut faults = Vec::new(alloc);
    for (index, call) in (7..40u64).enumerate() {
        if let Some((fault, vol)) = failing_at(alloc, call)? {
            assert!(rt; faults.len() == index && vol.faults().get() == 1);
            assert!(rt; opens_with_all(alloc, &vol)?);
            faults.push(fault)?;
        }
    }
    // the one removal comes behind all reads: the names, and of each log at least one
    assert!(rt; faults.pop() == Some(Fault::WriteFault));
    assert!(rt; faults.len() >= 4);
    for fault in &faults {
        assert!(rt; *fault == Fault::ReadFault);
    }
    Ok(())
}

/// Whether the records are sets like this one, numbered from 1 on.
fn are_sets(records: &[Rec], what: &Change) -> bool {
    let mut number = 0u64;
    for rec in records {
        number = number.wrapping_add(1);
        if rec.number != number || rec.change != number || !is_same(&rec.what, what) {
            return false;
        }
    }
    true
}

/// A volume with so many sets like this one, each synced by itself.
fn filled(alloc: Global, what: &Change, count: u64) -> Result<MemVolume, Fail>
    requires { IfSome (mark_of what.now) (λ mark. mark < 2 ^ 62) }
{
    let vol = MemVolume::new(alloc, Vec::new(alloc));
    let (mut state, _, _) = opened(alloc, vol, 1)?;
    for _ in 0..count {
        add(&mut state, 0, what)?;
        sync(alloc, &mut state, 0)?;
    }
    Ok(state.into_volume())
}

/// The head of the second log, in its frame: it begins with record 17, behind 16 changes. The digest was computed with another
/// program.
const SECOND: &[u8] = b"\0\0\0\x13\0\0\0\0\0\0\0\x02\x01\0\0\0\0\0\0\0\x11\0\x01\0\0\0\0\0\0\0\x10\
    \xba\x65\xe5\xe0\x98\xc1\xd8\x45";

/// Whether the volume has a log of this number that begins with these bytes.
fn begins_with<V: Volume>(
    alloc: Global,
    vol: &mut V,
    number: u64,
    want: &[u8],
) -> Result<bool, Fail> {
    let name = log_name(number);
    if !vol.names(alloc)?.contains(&name) {
        return Ok(false);
    }
    let mut buf = Vec::new(alloc);
    buf.resize(want.len(), 0u8)?;
    let count = vol.read_log(alloc, name, 0, &mut buf)?;
    Ok(&buf[..count] == want)
}

#[test]
fn a_log_of_16_mib_is_not_appended_to(rt: HostRuntime) -> Result<(), Fail> {
    let alloc = rt.alloc();
    // sixteen records of 1 MiB and some bytes pass 16 MiB
    let what = set(alloc, b"k", &vec![in alloc; b'd'; 1 << 20]?)?;
    let mut vol = filled(alloc, &what, 17)?;
    assert!(rt; log_numbers(alloc, &mut vol)?.as_slice() == [1, 2].as_slice());
    assert!(rt; begins_with(alloc, &mut vol, 2, SECOND)?);
    let (mut state, records, low) = opened(alloc, vol, 1)?;
    assert!(rt; records.len() == 17 && are_sets(&records, &what));
    assert!(rt; low.as_slice() == [0].as_slice());
    release(alloc, &mut state, 0, 15)?;
    release(alloc, &mut state, 0, 16)?;
    let vol = state.into_volume();
    let (state, records, low) = opened(alloc, vol, 1)?;
    assert!(rt; state.last() == 17 && records.len() == 1);
    assert!(rt; low.as_slice() == [16].as_slice());
    let mut vol = state.into_volume();
    assert!(rt; log_numbers(alloc, &mut vol)?.as_slice() == [2].as_slice());
    Ok(())
}
