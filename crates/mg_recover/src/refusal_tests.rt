//! Openings that are refused, and what they leave.

use crate::fixtures::{
    Step, ask_all, failing, finish, frames, lengths_of, log_bytes, opened, refused, volume_with,
};
use mg_disk::Volume;
use mg_memdisk::MemVolume;
use mg_model::Fault;
use mg_wal::log_file;
use std::alloc::Global;
use std::test::Fail;

/// The head of a log that begins with record 1, for one partition.
const HEAD: &[u8] = b"\x01\0\0\0\0\0\0\0\x01\0\x01\0\0\0\0\0\0\0\0";

/// The same behind one record, and behind two.
const BEHIND_ONE: &[u8] = b"\x01\0\0\0\0\0\0\0\x02\0\x01\0\0\0\0\0\0\0\x01";

const BEHIND_TWO: &[u8] = b"\x01\0\0\0\0\0\0\0\x03\0\x01\0\0\0\0\0\0\0\x02";

/// The head of a log that begins with record 1, for two partitions.
const OF_TWO: &[u8] = b"\x01\0\0\0\0\0\0\0\x01\0\x02\0\0\0\0\0\0\0\0\0\0\0\0\0\0\0\0";

/// The same behind two records of the second, and behind one of each.
const BEHIND_OTHER: &[u8] = b"\x01\0\0\0\0\0\0\0\x03\0\x02\0\0\0\0\0\0\0\0\0\0\0\0\0\0\0\x02";

const BEHIND_EACH: &[u8] = b"\x01\0\0\0\0\0\0\0\x03\0\x02\0\0\0\0\0\0\0\x01\0\0\0\0\0\0\0\x01";

/// First changes: a set of `a` to `x`, a mark, and a forget of the mark 0.
const SET: &[u8] = b"\0\0\0\0\0\0\0\0\0\x01\x01\x01a\0\0\0\x01x";

const MARK: &[u8] = b"\0\0\0\0\0\0\0\0\0\x01\x03";

const FORGET: &[u8] = b"\0\0\0\0\0\0\0\0\0\x01\x04\0\0\0\0\0\0\0\0";

/// Second changes: a mark, a forget of the mark 1, and a rollback to it.
const NEXT_MARK: &[u8] = b"\0\0\0\0\0\0\0\0\0\x02\x03";

const NEXT_FORGET: &[u8] = b"\0\0\0\0\0\0\0\0\0\x02\x04\0\0\0\0\0\0\0\x01";

const NEXT_BACK: &[u8] = b"\0\0\0\0\0\0\0\0\0\x02\x05\0\0\0\0\0\0\0\x01";

/// Third changes: a forget of the mark 2, and a rollback to it.
const THIRD_FORGET: &[u8] = b"\0\0\0\0\0\0\0\0\0\x03\x04\0\0\0\0\0\0\0\x02";

const THIRD_BACK: &[u8] = b"\0\0\0\0\0\0\0\0\0\x03\x05\0\0\0\0\0\0\0\x02";

/// Changes of the second partition: a forget of the mark 0 as its first, and a mark as its third.
const OTHER_FORGET: &[u8] = b"\0\x01\0\0\0\0\0\0\0\x01\x04\0\0\0\0\0\0\0\0";

const OTHER_MARK: &[u8] = b"\0\x01\0\0\0\0\0\0\0\x03\x03";

/// Whether the volume has these logs, and nothing else.
fn has_logs(
    alloc: Global,
    vol: &mut MemVolume,
    logs: &[(u64, &[(u64, &[u8])])],
) -> Result<bool, Fail> {
    if vol.names(alloc)?.len() != logs.len() {
        return Ok(false);
    }
    for (number, entries) in logs {
        if log_bytes(alloc, vol, *number)? != frames(alloc, entries)? {
            return Ok(false);
        }
    }
    Ok(true)
}

/// With which fault a volume of these logs is refused. None where it opens, or comes back without them.
fn refusal_of(
    alloc: Global,
    parts: u16,
    logs: &[(u64, &[(u64, &[u8])])],
) -> Result<Option<Fault>, Fail> {
    match refused(alloc, volume_with(alloc, logs)?, parts)? {
        Some(error) => {
            let mut vol = error.vol;
            Ok(has_logs(alloc, &mut vol, logs)?.then_some(error.fault))
        }
        None => Ok(None),
    }
}

fn malformed(number: u64, at: u64) -> Fault {
    Fault::Malformed {
        file: log_file(number),
        at,
    }
}

fn gap(part: u16, low: u64, high: u64) -> Fault {
    Fault::Gap {
        part,
        applied: 0,
        low,
        high,
    }
}

#[test]
fn logs_without_the_first_changes_are_refused(rt: HostRuntime) -> Result<(), Fail> {
    let alloc = rt.alloc();
    let cases: [(u16, &[(u64, &[(u64, &[u8])])], Fault); 7] = [
        (1, &[(1, &[(1, BEHIND_ONE)])], gap(0, 1, 1)),
        (1, &[(2, &[(2, BEHIND_ONE), (2, NEXT_MARK)])], gap(0, 1, 2)),
        (2, &[(1, &[(1, BEHIND_OTHER)])], gap(1, 2, 2)),
        (
            2,
            &[(1, &[(1, BEHIND_OTHER), (3, OTHER_MARK)])],
            gap(1, 2, 3),
        ),
        // the first partition of two, and the oldest log
        (2, &[(1, &[(1, BEHIND_EACH)])], gap(0, 1, 1)),
        (
            1,
            &[
                (2, &[(2, BEHIND_ONE), (2, NEXT_MARK)]),
                (3, &[(3, BEHIND_TWO)]),
            ],
            gap(0, 1, 2),
        ),
        // before a record that is not allowed
        (
            1,
            &[(1, &[(1, BEHIND_ONE), (2, NEXT_FORGET)])],
            gap(0, 1, 2),
        ),
    ];
    for (parts, logs, fault) in &cases {
        let told = refusal_of(alloc, *parts, logs)?;
        assert!(rt; told == Some(*fault), "{told:?}, {fault:?}");
    }
    Ok(())
}

#[test]
fn records_that_are_not_allowed_are_refused(rt: HostRuntime) -> Result<(), Fail> {
    let alloc = rt.alloc();
    let cases: [(u16, &[(u64, &[(u64, &[u8])])], Fault); 11] = [
        // without a mark
        (1, &[(7, &[(7, HEAD), (1, FORGET)])], malformed(7, 39)),
        (
            1,
            &[(1, &[(1, HEAD), (1, SET), (2, NEXT_FORGET)])],
            malformed(1, 77),
        ),
        (
            1,
            &[(1, &[(1, HEAD), (1, SET), (2, NEXT_BACK)])],
            malformed(1, 77),
        ),
        // with the mark 0, and with the mark 1
        (
            1,
            &[(1, &[(1, HEAD), (1, MARK), (2, NEXT_BACK)])],
            malformed(1, 70),
        ),
        (
            1,
            &[(1, &[(1, HEAD), (1, SET), (2, NEXT_MARK), (3, THIRD_FORGET)])],
            malformed(1, 108),
        ),
        (
            1,
            &[(1, &[(1, HEAD), (1, SET), (2, NEXT_MARK), (3, THIRD_BACK)])],
            malformed(1, 108),
        ),
        // the first of two
        (
            1,
            &[(1, &[(1, HEAD), (1, SET), (2, NEXT_FORGET), (3, THIRD_BACK)])],
            malformed(1, 77),
        ),
        // the second partition, whatever the first has
        (
            2,
            &[(1, &[(1, OF_TWO), (1, MARK), (2, OTHER_FORGET)])],
            malformed(1, 78),
        ),
        // in the older of two logs, in the newer, and in both
        (
            1,
            &[
                (1, &[(1, HEAD), (1, SET), (2, NEXT_FORGET)]),
                (2, &[(2, BEHIND_TWO)]),
            ],
            malformed(1, 77),
        ),
        (
            1,
            &[
                (1, &[(1, HEAD), (1, SET)]),
                (2, &[(2, BEHIND_ONE), (2, NEXT_BACK)]),
            ],
            malformed(2, 39),
        ),
        (
            1,
            &[
                (1, &[(1, HEAD), (1, SET), (2, NEXT_FORGET)]),
                (2, &[(2, BEHIND_ONE), (2, NEXT_FORGET)]),
            ],
            malformed(2, 39),
        ),
    ];
    for (parts, logs, fault) in &cases {
        let told = refusal_of(alloc, *parts, logs)?;
        assert!(rt; told == Some(*fault), "{told:?}, {fault:?}");
    }
    Ok(())
}

/// What is left of a store of two partitions with a change in each.
fn store_of_two(alloc: Global) -> Result<MemVolume, Fail> {
    let mut store = opened(alloc, failing(alloc, &[])?, 2)?;
    ask_all(
        alloc,
        &mut store,
        &[(0, Step::Set("a", "x")), (1, Step::Set("a", "y"))],
    )?;
    finish(alloc, &mut store)?;
    Ok(store.into_volume())
}

#[test]
fn fewer_partitions_are_refused_and_all_open_again(rt: HostRuntime) -> Result<(), Fail> {
    let alloc = rt.alloc();
    for asked in 0..2u16 {
        let told = refused(alloc, store_of_two(alloc)?, asked)?;
        let error = told.ok_or("it opened")?;
        assert!(rt; error.fault == Fault::FewerParts { asked, kept: 2 });
        let lengths = lengths_of(alloc, &opened(alloc, error.vol, 2)?)?;
        assert!(rt;
            lengths.as_slice() == [(1, 0), (1, 0)].as_slice(),
            "{lengths:?}"
        );
    }
    let lengths = lengths_of(alloc, &opened(alloc, store_of_two(alloc)?, 3)?)?;
    assert!(rt;
        lengths.as_slice() == [(1, 0), (1, 0), (0, 0)].as_slice(),
        "{lengths:?}"
    );
    Ok(())
}
