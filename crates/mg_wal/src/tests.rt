ghost use Rattle.std.specs.Prelude.{◌≡◌, ◌<◌, ◌^◌, IfOk, IfSome, IsSome, OnOk};
ghost use Rattle.mg_wal_format.specs.Records.{mark_of};
ghost use Rattle.mg_wal.specs.Book.{parts_in};
ghost use Rattle.mg_wal.specs.States.{book_of};

use crate::fixtures::{frames, has_log, opened, set, volume_with};
use crate::known::log_name;
use crate::receipt::Receipt;
use crate::state::WalState;
use mg_disk::Volume;
use mg_frame::put_frame;
use mg_memdisk::MemVolume;
use mg_model::Change;
use mg_types::Fault;
use std::alloc::Global;
use std::test::Fail;

/// The state of a volume of three partitions.
fn state_in(alloc: Global, vol: MemVolume) -> Result<WalState<MemVolume>, Fail>
    ensures parts { IfOk result (λ state. parts_in (book_of state) ≡ 3) }
{
    let (state, _, _) = opened(alloc, vol, 3)?;
    Ok(state)
}

/// The state of a volume without a log. Its calls with these numbers fail, of which the opening makes the first.
fn state_of_failing(alloc: Global, failing: &[u64]) -> Result<WalState<MemVolume>, Fail>
    ensures parts { IfOk result (λ state. parts_in (book_of state) ≡ 3) }
{
    state_in(alloc, volume_with(alloc, failing, &[])?)
}

/// The state of a volume whose one log is only this head.
fn state_behind(alloc: Global, head: &[u8]) -> Result<WalState<MemVolume>, Fail>
    ensures parts { IfOk result (λ state. parts_in (book_of state) ≡ 3) }
{
    let log = frames(alloc, &[(1, head)])?;
    let logs = vec![in alloc; (1, log)]?;
    state_in(alloc, volume_with(alloc, &[], &logs)?)
}

/// Reserves a record, in a state that keeps its partitions.
fn stage(state: &mut WalState<MemVolume>, part: u16, what: &Change) -> Result<(), Fault>
    requires part { part < parts_in (book_of state.old) }
    requires mark { IfSome (mark_of what.now) (λ mark. mark < 2 ^ 62) }
    ensures parts { parts_in (book_of state.new) ≡ parts_in (book_of state.old) }
    ensures staged { OnOk result (IsSome (book_of state.new).staged) }
{
    state.reserve(part, what)
}

/// Whether what waits is the frames of these bodies, numbered from `first` on.
fn waits(
    alloc: Global,
    state: &WalState<MemVolume>,
    first: u64,
    bodies: &[&[u8]],
) -> Result<bool, Fail> {
    let mut want = Vec::new(alloc);
    let mut number = first;
    for body in bodies {
        if body.len() > 1000 {
            return Ok(false);
        }
        put_frame(number, body, &mut want)?;
        number = number.wrapping_add(1);
    }
    Ok(state.ledger.frames.waiting() == want.as_slice())
}

#[test]
fn pushed_records_wait_in_their_order(rt: HostRuntime) -> Result<(), Fail> {
    let alloc = rt.alloc();
    // behind two changes of the second partition
    let mut state = state_behind(
        alloc,
        b"\x01\0\0\0\0\0\0\0\x01\0\x03\
        \0\0\0\0\0\0\0\0\0\0\0\0\0\0\0\x02\0\0\0\0\0\0\0\0",
    )?;
    assert!(rt; state.last() == 0);
    stage(&mut state, 0, &set(alloc, b"a", b"x")?)?;
    assert!(rt; waits(alloc, &state, 1, &[])?);
    assert!(rt; state.push() == 1);
    stage(&mut state, 1, &Change::Mark)?;
    assert!(rt; state.push() == 2);
    stage(&mut state, 0, &Change::Clear)?;
    assert!(rt; state.push() == 3);
    assert!(rt; state.last() == 3);
    let bodies = [
        b"\0\0\0\0\0\0\0\0\0\x01\x01\x01a\0\0\0\x01x".as_slice(),
        b"\0\x01\0\0\0\0\0\0\0\x03\x03",
        b"\0\0\0\0\0\0\0\0\0\x02\x06",
    ];
    assert!(rt; waits(alloc, &state, 1, &bodies)?);
    Ok(())
}

#[test]
fn a_record_that_was_not_pushed_is_replaced(rt: HostRuntime) -> Result<(), Fail> {
    let alloc = rt.alloc();
    // behind six records, of which two are of the second partition
    let mut state = state_behind(
        alloc,
        b"\x01\0\0\0\0\0\0\0\x07\0\x03\
        \0\0\0\0\0\0\0\0\0\0\0\0\0\0\0\x02\0\0\0\0\0\0\0\0",
    )?;
    stage(&mut state, 0, &set(alloc, b"abc", b"a long document")?)?;
    stage(&mut state, 1, &Change::Forget { mark: 258 })?;
    assert!(rt; waits(alloc, &state, 7, &[])?);
    assert!(rt; state.push() == 7);
    let bodies = [b"\0\x01\0\0\0\0\0\0\0\x03\x04\0\0\0\0\0\0\x01\x02".as_slice()];
    assert!(rt; waits(alloc, &state, 7, &bodies)?);
    Ok(())
}

#[test]
fn a_worn_number_is_told(rt: HostRuntime) -> Result<(), Fail> {
    let alloc = rt.alloc();
    let most = (1 << 62) - 1;
    // the next record has the last number, and the second partition has had as many changes
    let mut state = state_behind(
        alloc,
        b"\x01\x3f\xff\xff\xff\xff\xff\xff\xff\0\x03\
        \0\0\0\0\0\0\0\0\x3f\xff\xff\xff\xff\xff\xff\xff\0\0\0\0\0\0\0\0",
    )?;
    assert!(rt; stage(&mut state, 1, &Change::Mark) == Err(Fault::Worn { kept: most }));
    stage(&mut state, 0, &Change::Mark)?;
    assert!(rt; state.push() == most);
    assert!(rt; stage(&mut state, 0, &Change::Mark) == Err(Fault::Worn { kept: most }));
    let vol = state.into_volume();
    assert!(rt; vol.faults().get() == 0);
    Ok(())
}

/// The head of a log that begins with record 1, for three partitions without a change.
const HEAD: &[u8] = b"\x01\0\0\0\0\0\0\0\x01\0\x03\
    \0\0\0\0\0\0\0\0\0\0\0\0\0\0\0\0\0\0\0\0\0\0\0\0";

/// A mark of partition 0, its first change.
const MARK: &[u8] = b"\0\0\0\0\0\0\0\0\0\x01\x03";

/// A clear of partition 1, its first change.
const CLEAR: &[u8] = b"\0\x01\0\0\0\0\0\0\0\x01\x06";

#[test]
fn a_sync_writes_what_waits(rt: HostRuntime) -> Result<(), Fail> {
    let alloc = rt.alloc();
    let mut state = state_of_failing(alloc, &[])?;
    stage(&mut state, 0, &Change::Mark)?;
    state.push();
    let receipt = state.sync(alloc, 0)?;
    assert!(rt; receipt.through() == 1 && receipt.part() == 0 && receipt.change() == 1);
    stage(&mut state, 1, &Change::Clear)?;
    state.push();
    stage(&mut state, 1, &Change::Mark)?;
    let receipt = state.sync(alloc, 1)?;
    assert!(rt; receipt.through() == 2 && receipt.part() == 1 && receipt.change() == 1);
    let receipt = state.sync(alloc, 2)?;
    assert!(rt; receipt.through() == 2 && receipt.part() == 2 && receipt.change() == 0);
    let mut vol = state.into_volume();
    let want = frames(alloc, &[(1, HEAD), (1, MARK), (2, CLEAR)])?;
    assert!(rt; has_log(alloc, &mut vol, 1, &want)?);
    assert!(rt; !has_log(alloc, &mut vol, 2, &want)?);
    Ok(())
}

#[test]
fn a_failed_log_is_not_written_again(rt: HostRuntime) -> Result<(), Fail> {
    let alloc = rt.alloc();
    // the opening asks for the names; a log is made, appended to and synced by three calls
    let mut state = state_of_failing(alloc, &[3])?;
    stage(&mut state, 0, &Change::Mark)?;
    state.push();
    assert!(rt; state.sync(alloc, 0) == Err(Fault::WriteFault));
    stage(&mut state, 1, &Change::Clear)?;
    state.push();
    let receipt = state.sync(alloc, 0)?;
    assert!(rt; receipt.through() == 2 && receipt.change() == 1);
    let mut vol = state.into_volume();
    let want = frames(alloc, &[(2, HEAD), (1, MARK), (2, CLEAR)])?;
    assert!(rt; has_log(alloc, &mut vol, 2, &want)?);
    Ok(())
}

/// The head of a log that begins with record 2, behind one change of the first of three partitions.
const NEXT_HEAD: &[u8] = b"\x01\0\0\0\0\0\0\0\x02\0\x03\
    \0\0\0\0\0\0\0\x01\0\0\0\0\0\0\0\0\0\0\0\0\0\0\0\0";

/// What the syncs of two records answer where one call of the volume fails, each right after its record, and the volume once a
/// third sync has answered that both records are synced.
fn synced_behind(
    alloc: Global,
    failing: u64,
) -> Result<(Result<Receipt, Fault>, Result<Receipt, Fault>, MemVolume), Fail> {
    let mut state = state_of_failing(alloc, &[failing])?;
    stage(&mut state, 0, &Change::Mark)?;
    state.push();
    let first = state.sync(alloc, 0);
    stage(&mut state, 1, &Change::Clear)?;
    state.push();
    let second = state.sync(alloc, 1);
    let third = state.sync(alloc, 1)?;
    if third != BOTH {
        return Err(Fail::from("another receipt"));
    }
    Ok((first, second, state.into_volume()))
}

/// That the first record, a change of partition 0, is synced.
const ONE: Receipt = Receipt {
    through: 1,
    part: 0,
    change: 1,
};

/// That both records are synced, of which the second is a change of partition 1.
const BOTH: Receipt = Receipt {
    through: 2,
    part: 1,
    change: 1,
};

#[test]
fn after_each_failed_call_a_log_is_begun(rt: HostRuntime) -> Result<(), Fail> {
    let alloc = rt.alloc();
    let failed = Err(Fault::WriteFault);
    let all = [(2, HEAD), (1, MARK), (2, CLEAR)].as_slice();
    let rest = [(2, NEXT_HEAD), (2, CLEAR)].as_slice();
    // the opening asks for the names; a log is made, appended to and synced, and then appended to and synced once more
    let cases = [
        (2, failed, Ok(BOTH), all),
        (3, failed, Ok(BOTH), all),
        (4, failed, Ok(BOTH), all),
        (5, Ok(ONE), failed, rest),
        (6, Ok(ONE), failed, rest),
    ];
    for (failing, first, second, log) in &cases {
        let (one, two, mut vol) = synced_behind(alloc, *failing)?;
        assert!(rt; one == *first && two == *second);
        assert!(rt; vol.faults().get() == 1);
        let want = frames(alloc, log)?;
        assert!(rt; has_log(alloc, &mut vol, 2, &want)?);
    }
    Ok(())
}

/// A state of two logs: the first has a change of partition 0, the second begins behind it with one of partition 1. The volume's
/// calls were one for its names, three for the first log, an append that failed, and three for the second log.
fn state_of_two_logs(alloc: Global, failing: &[u64]) -> Result<WalState<MemVolume>, Fail>
    ensures parts { IfOk result (λ state. parts_in (book_of state) ≡ 3) }
{
    let mut state = state_of_failing(alloc, failing)?;
    stage(&mut state, 0, &Change::Mark)?;
    state.push();
    state.sync(alloc, 0)?;
    stage(&mut state, 1, &Change::Clear)?;
    state.push();
    if state.sync(alloc, 1).is_ok() {
        return Err(Fail::from("no call failed"));
    }
    state.sync(alloc, 1)?;
    Ok(state)
}

/// Releases the first changes of a partition, of which it has so many.
fn release(
    alloc: Global,
    state: &mut WalState<MemVolume>,
    part: u16,
    change: u64,
) -> Result<(), Fault>
    requires part { part < parts_in (book_of state.old) }
    ensures parts { parts_in (book_of state.new) ≡ parts_in (book_of state.old) }
{
    if state.ledger.counts[usize::from(part)] < change {
        return Err(Fault::Worn { kept: change });
    }
    state.release(alloc, part, change)
}

/// Whether a volume has these of the first three logs.
fn has_logs(alloc: Global, vol: &mut MemVolume, logs: [bool; 3]) -> Result<bool, Fail> {
    let names = vol.names(alloc)?;
    let mut number = 0u64;
    for there in &logs {
        number = number.wrapping_add(1);
        let name = log_name(number);
        if names.contains(&name) != *there {
            return Ok(false);
        }
    }
    Ok(true)
}

#[test]
fn a_log_goes_once_all_before_the_next_is_released(rt: HostRuntime) -> Result<(), Fail> {
    let alloc = rt.alloc();
    let both = [true, true, false];
    let cases = [
        (0u16, 0u64, both),
        (1, 1, both),
        (0, 1, [false, true, false]),
    ];
    for (part, change, logs) in &cases {
        let mut state = state_of_two_logs(alloc, &[5])?;
        if *part < 3 {
            release(alloc, &mut state, *part, *change)?;
        }
        let mut vol = state.into_volume();
        assert!(rt; has_logs(alloc, &mut vol, *logs)?);
    }
    Ok(())
}

#[test]
fn a_removal_that_failed_is_tried_at_the_next_release(rt: HostRuntime) -> Result<(), Fail> {
    let alloc = rt.alloc();
    let mut state = state_of_two_logs(alloc, &[5, 9])?;
    assert!(rt; release(alloc, &mut state, 0, 1) == Err(Fault::WriteFault));
    release(alloc, &mut state, 2, 0)?;
    let mut vol = state.into_volume();
    assert!(rt; vol.faults().get() == 2);
    assert!(rt; has_logs(alloc, &mut vol, [false, true, false])?);
    Ok(())
}
