//! Openings of what crashes leave of a store.

use crate::fixtures::{Step, ask, ask_all, failing, lengths_of, log_bytes, opened};
use mg_memdisk::MemVolume;
use mg_model::Fault;
use std::alloc::Global;
use std::test::Fail;

/// The volume of a store after a sync of the first changes, and another of all behind them, in which the call of the volume failed
/// that makes them lasting.
fn torn(
    alloc: Global,
    parts: u16,
    synced: &[(u16, Step)],
    behind: &[(u16, Step)],
) -> Result<MemVolume, Fail> {
    // the opening asks for the names; a log is made, appended to and synced, and appended to and synced once more
    let mut store = opened(alloc, failing(alloc, &[6])?, parts)?;
    ask_all(alloc, &mut store, synced)?;
    ask_all(alloc, &mut store, &[(0, Step::Sync)])?;
    ask_all(alloc, &mut store, behind)?;
    let answer = ask(alloc, &mut store, 0, Step::Sync)?;
    if answer.place.is_some() || !matches!(answer.result, Err(Fault::WriteFault)) {
        return Err(Fail::from("the sync did not fail"));
    }
    Ok(store.into_volume())
}

/// What a crash leaves of a volume with two appends, of which the first is synced: so many bytes of the second, and behind them as
/// many other bytes as there is room for, or none.
fn cut_at(
    alloc: Global,
    vol: &MemVolume,
    second: &[u8],
    cut: usize,
    other: Option<u8>,
) -> Result<MemVolume, Fail> {
    let mut choice = vec![in alloc; 0u8]?;
    for (index, byte) in second.iter().enumerate() {
        let left = if index < cut {
            Some(*byte)
        } else {
            other.map(|other| *byte ^ other)
        };
        if let Some(left) = left {
            choice.push(1)?;
            choice.push(left)?;
        }
    }
    Ok(vol.crash(alloc, &choice)?)
}

/// The lengths to which a store opens after each of the crashes that leave so many bytes, and other bytes behind them or none.
/// Where these three differ there are none.
fn lengths_at(
    alloc: Global,
    vol: &MemVolume,
    second: &[u8],
    cut: usize,
    parts: u16,
) -> Result<Option<Vec<(u64, u64)>>, Fail> {
    let left = cut_at(alloc, vol, second, cut, None)?;
    let lengths = lengths_of(alloc, &opened(alloc, left, parts)?)?;
    for other in [1u8, 255] {
        let left = cut_at(alloc, vol, second, cut, Some(other))?;
        if lengths_of(alloc, &opened(alloc, left, parts)?)? != lengths {
            return Ok(None);
        }
    }
    Ok(Some(lengths))
}

/// The second record, a set of `b` to `y`, in its frame. The digest was computed with another program.
const SECOND: &[u8] =
    b"\0\0\0\x12\0\0\0\0\0\0\0\x02\0\0\0\0\0\0\0\0\0\x02\x01\x01b\0\0\0\x01y\x90\xb3\x1a\xde\x41\x25\x94\x84";

#[test]
fn a_torn_frame_is_lost_at_each_of_its_lengths(rt: HostRuntime) -> Result<(), Fail> {
    let alloc = rt.alloc();
    let synced = [(0, Step::Set("a", "x"))];
    let mut vol = torn(alloc, 1, &synced, &[(0, Step::Set("b", "y"))])?;
    let log = log_bytes(alloc, &mut vol, 1)?;
    // behind the head of 39 bytes and the first frame of 38
    assert!(rt; log.len() == 115 && &log[77..] == SECOND);
    for cut in 0..=38usize {
        let want = if cut < 38 { (1, 0) } else { (2, 0) };
        let lengths = lengths_at(alloc, &vol, SECOND, cut, 1)?;
        assert!(rt; lengths == Some(vec![in alloc; want]?), "{cut} {lengths:?}");
    }
    Ok(())
}

#[test]
fn partitions_are_cut_at_one_change(rt: HostRuntime) -> Result<(), Fail> {
    let alloc = rt.alloc();
    let synced = [(0, Step::Set("a", "x")), (1, Step::Set("a", "y"))];
    let behind = [
        (1, Step::Set("b", "z")),
        (0, Step::Set("b", "z")),
        (1, Step::Set("c", "z")),
    ];
    let mut vol = torn(alloc, 2, &synced, &behind)?;
    let log = log_bytes(alloc, &mut vol, 1)?;
    // a head of 47 bytes, and five frames of 38
    assert!(rt; log.len() == 237);
    for cut in 0..=114usize {
        let want = match cut {
            0..38 => [(1, 0), (1, 0)],
            38..76 => [(1, 0), (2, 0)],
            76..114 => [(2, 0), (2, 0)],
            _ => [(2, 0), (3, 0)],
        };
        let lengths = lengths_at(alloc, &vol, &log[123..], cut, 2)?;
        assert!(rt; lengths == Some(want.to_vec(alloc)?), "{cut} {lengths:?}");
    }
    Ok(())
}
