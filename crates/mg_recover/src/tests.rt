//! Worked calls on a store, and openings of what it left.

use crate::fixtures::{
    Row, Step, ask_all, failing, finish, lengths_of, opened, other_answer, volume_with,
};
use mg_memdisk::MemVolume;
use std::alloc::Global;
use std::test::Fail;

#[test]
fn calls_are_answered_by_each_partitions_own_list(rt: HostRuntime) -> Result<(), Fail> {
    let alloc = rt.alloc();
    let rows: [Row; 15] = [
        (0, Step::Set("a", "x"), Some(1), "Seq { seq: 1 }"),
        (1, Step::Set("a", "y"), Some(1), "Seq { seq: 1 }"),
        (0, Step::Get("a"), Some(2), "Found 1 [120]"),
        (1, Step::Get("a"), Some(2), "Found 1 [121]"),
        (0, Step::Set("b", "zz"), Some(3), "Seq { seq: 2 }"),
        (1, Step::Get("b"), Some(3), "Absent"),
        (0, Step::Del("a"), Some(4), "Seq { seq: 3 }"),
        (0, Step::Get("a"), Some(5), "Absent"),
        // the newest change of each key, and the number of the last
        (0, Step::Feed(0, 0), Some(6), "Feed 0 3 [2, 3]"),
        (0, Step::Feed(0, 2), Some(7), "Feed 0 3 [3]"),
        (1, Step::Feed(0, 2), Some(4), "Ahead { length: 1 }"),
        (1, Step::Feed(1, 0), Some(5), "Epoch { epoch: 0 }"),
        (1, Step::Sync, Some(6), "Synced"),
        (
            0,
            Step::Stats,
            Some(8),
            "Stats { length: 3, live: 1, bytes: 2, marks: 0, epoch: 0 }",
        ),
        (
            1,
            Step::Stats,
            Some(7),
            "Stats { length: 1, live: 1, bytes: 1, marks: 0, epoch: 0 }",
        ),
    ];
    let mut store = opened(alloc, failing(alloc, &[])?, 2)?;
    let other = other_answer(alloc, &mut store, &rows)?;
    assert!(rt; other.is_none(), "{other:?}");
    Ok(())
}

#[test]
fn a_sync_that_fails_takes_no_place(rt: HostRuntime) -> Result<(), Fail> {
    let alloc = rt.alloc();
    let rows: [Row; 6] = [
        (0, Step::Set("a", "x"), Some(1), "Seq { seq: 1 }"),
        (0, Step::Sync, None, "WriteFault"),
        (0, Step::Get("a"), Some(2), "Found 1 [120]"),
        (0, Step::Set("a", "y"), Some(3), "Seq { seq: 2 }"),
        (0, Step::Sync, Some(4), "Synced"),
        (0, Step::Get("a"), Some(5), "Found 2 [121]"),
    ];
    // a log is made, appended to and synced by three calls, behind that of the opening
    for call in 2..5u64 {
        let mut store = opened(alloc, failing(alloc, &[call])?, 1)?;
        let other = other_answer(alloc, &mut store, &rows)?;
        assert!(rt; other.is_none(), "{call} {other:?}");
        let vol = store.into_volume().crash(alloc, b"")?;
        let lengths = lengths_of(alloc, &opened(alloc, vol, 1)?)?;
        assert!(rt;
            lengths.as_slice() == [(2, 0)].as_slice(),
            "{call} {lengths:?}"
        );
    }
    Ok(())
}

/// What is left of a store of two partitions in which these changes were made, and so many of them finished.
fn finished(alloc: Global, steps: &[(u16, Step)], lasting: usize) -> Result<MemVolume, Fail> {
    if lasting > steps.len() {
        return Err(Fail::from("no such change"));
    }
    let mut store = opened(alloc, failing(alloc, &[])?, 2)?;
    ask_all(alloc, &mut store, &steps[..lasting])?;
    finish(alloc, &mut store)?;
    ask_all(alloc, &mut store, &steps[lasting..])?;
    Ok(store.into_volume())
}

#[test]
fn what_was_finished_is_there_again(rt: HostRuntime) -> Result<(), Fail> {
    let alloc = rt.alloc();
    let steps = [
        (0, Step::Set("a", "x")),
        (1, Step::Set("a", "y")),
        (0, Step::Del("a")),
        (1, Step::Set("b", "z")),
    ];
    let cases = [
        (0usize, [(0u64, 0u64), (0, 0)]),
        (1, [(1, 0), (0, 0)]),
        (2, [(1, 0), (1, 0)]),
        (3, [(2, 0), (1, 0)]),
        (4, [(2, 0), (2, 0)]),
    ];
    for (lasting, want) in &cases {
        let vol = finished(alloc, &steps, *lasting)?;
        let crashed = vol.crash(alloc, b"")?;
        let lengths = lengths_of(alloc, &opened(alloc, crashed, 2)?)?;
        assert!(rt;
            lengths.as_slice() == want.as_slice(),
            "{lasting} {lengths:?}"
        );
        let lengths = lengths_of(alloc, &opened(alloc, vol, 2)?)?;
        assert!(rt;
            lengths.as_slice() == want.as_slice(),
            "{lasting} {lengths:?}"
        );
    }
    Ok(())
}

/// The head of a log that begins with record 1, for two partitions.
const HEAD: &[u8] = b"\x01\0\0\0\0\0\0\0\x01\0\x02\0\0\0\0\0\0\0\0\0\0\0\0\0\0\0\0";

/// Changes of the first partition: a set of `a` to `x`, a mark, a set of `b` to `y`, and a rollback to the mark.
const SET: &[u8] = b"\0\0\0\0\0\0\0\0\0\x01\x01\x01a\0\0\0\x01x";

const MARK: &[u8] = b"\0\0\0\0\0\0\0\0\0\x02\x03";

const NEXT: &[u8] = b"\0\0\0\0\0\0\0\0\0\x03\x01\x01b\0\0\0\x01y";

const BACK: &[u8] = b"\0\0\0\0\0\0\0\0\0\x04\x05\0\0\0\0\0\0\0\x01";

/// A clear of the second partition, its first change.
const CLEAR: &[u8] = b"\0\x01\0\0\0\0\0\0\0\x01\x06";

#[test]
fn epochs_stay_over_openings(rt: HostRuntime) -> Result<(), Fail> {
    let alloc = rt.alloc();
    let log = [
        (1, HEAD),
        (1, SET),
        (2, MARK),
        (3, NEXT),
        (4, BACK),
        (5, CLEAR),
    ]
    .as_slice();
    let mut vol = volume_with(alloc, &[(1, log)])?;
    for length in 1..4u64 {
        let mut store = opened(alloc, vol, 2)?;
        let lengths = lengths_of(alloc, &store)?;
        assert!(rt;
            lengths.as_slice() == [(length, 1), (0, 1)].as_slice(),
            "{lengths:?}"
        );
        ask_all(alloc, &mut store, &[(0, Step::Set("b", "z"))])?;
        finish(alloc, &mut store)?;
        vol = store.into_volume();
    }
    let rows: [Row; 4] = [
        (0, Step::Get("a"), Some(1), "Found 1 [120]"),
        (0, Step::Get("b"), Some(2), "Found 4 [122]"),
        (
            0,
            Step::Stats,
            Some(3),
            "Stats { length: 4, live: 2, bytes: 2, marks: 1, epoch: 1 }",
        ),
        (
            1,
            Step::Stats,
            Some(1),
            "Stats { length: 0, live: 0, bytes: 0, marks: 0, epoch: 1 }",
        ),
    ];
    let mut store = opened(alloc, vol, 2)?;
    let other = other_answer(alloc, &mut store, &rows)?;
    assert!(rt; other.is_none(), "{other:?}");
    Ok(())
}
