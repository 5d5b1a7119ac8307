//! Two threads that push into one log.

ghost use Rattle.std.specs.Prelude.{◌≡◌, ◌+◌, ◌<◌, ◌≤◌, None, IfOk, IsTrue};
ghost use Rattle.mg_memdisk.specs.Volumes.{mem_view};
ghost use Rattle.mg_wal_format.specs.Records.{mark_of};
ghost use Rattle.mg_wal.specs.Openings.{basis_for};
ghost use Rattle.mg_wal.specs.Starts.{at_start, HasOnly, IsAlone, StandsAtStart};
ghost use Rattle.mg_wal.specs.States.{book_of, ledger_book, volume_of};

use crate::fixtures::opened;
use crate::ledger::Ledger;
use crate::named::{LogNames, Wal, push_one, share};
use crate::recovery::{RecoverError, recover};
use crate::state::WalState;
use mg_disk::Host;
use mg_memdisk::{MemHost, MemVolume};
use mg_model::Change;
use mg_turn::Pass;
use mg_types::{Fault, Key};
use mg_wal_format::Rec;
use std::alloc::Global;
use std::sync::Wait;
use std::test::Fail;
use std::thread::{Threads, join};

/// How many changes each thread pushes.
const TIMES: u8 = 100;

/// The names of an opening of an empty volume for two partitions.
#[derive(Drop)]
struct AtStart;

impl LogNames for AtStart {
    ghost use Rattle.mg_wal.specs.Starts.{at_start};

    ghost basis = { at_start };

    ghost since = { 0 };

    ghost released = { at_start.low };
}

/// A log of these names behind a turn.
type StartedWal = Wal<MemVolume, AtStart>;

/// A caller's pass.
type CallerPass = Pass<(u16, Change)>;

/// Whether an opening for two partitions found no log.
fn found_nothing(ledger: &Ledger, records: &[Rec], low: &[u64]) -> bool
    ensures { IsTrue result → basis_for (ledger_book ledger.now) records.now low.now ≡ at_start }
{
    matches!(
        (ledger.last, ledger.reach, ledger.newest, records, low),
        (0, 0, 0, [], [0, 0])
    )
}

/// The state of an empty volume for two partitions.
fn state_at_start(alloc: Global) -> Result<WalState<MemVolume>, Fail>
    ensures { IfOk result (λ state. StandsAtStart (book_of state) (mem_view (volume_of state))) }
{
    let mut host = MemHost::new(alloc, None);
    let vol = host.volume(alloc, 3)?;
    let (state, records, low) = match recover(alloc, vol, 2) {
        Ok(found) => found,
        Err(RecoverError { fault, vol: _ }) => return Err(fault.into()),
    };
    if !found_nothing(&state.ledger, &records, &low) {
        return Err("an empty volume has a log".into());
    }
    Ok(state)
}

/// An empty log behind a turn, and the passes of callers 0, 1 and 2.
fn share_for_two(alloc: Global) -> Result<(StartedWal, CallerPass, CallerPass, CallerPass), Fail>
    ensures rest { IfOk result (λ made. IsAlone made.0 0 65534 0 made.1) }
    ensures one { IfOk result (λ made. IsAlone made.0 1 1 0 made.2) }
    ensures two { IfOk result (λ made. IsAlone made.0 2 1 0 made.3) }
{
    let state = state_at_start(alloc)?;
    let (wal, mut pass) = share(alloc, state).ok().ok_or("no memory")?;
    let one = wal.split(&mut pass);
    let two = wal.split(&mut pass);
    Ok((wal, pass, one, two))
}

/// Deletes the key of this byte.
fn delete(alloc: Global, byte: u8) -> Result<Change, Fault>
    ensures { IfOk result (λ change. mark_of change ≡ None) }
{
    let key = Key::new(alloc, &[byte])?.ok_or(Fault::BadWords)?;
    Ok(Change::Del { key })
}

/// Pushes that the keys of the first bytes are deleted, `TIMES` of them, or fewer where a push fails. The pass comes back with
/// their number.
fn push_many<R: Wait>(
    rt: &R,
    alloc: Global,
    wal: &StartedWal,
    mut pass: CallerPass,
    part: u16,
) -> (CallerPass, u8)
    requires pass { IsAlone wal.now (part + 1) 1 0 pass }
    requires part { part < 2 }
    ensures pass { IsAlone wal.now (part + 1) 1 result.1 result.0 }
    ensures most { result.1 ≤ 100 }
{
    for byte in 0..TIMES {
        let Ok(change) = delete(alloc, byte) else {
            return (pass, byte);
        };
        if push_one(rt, wal, &mut pass, &(part, change)).is_err() {
            return (pass, byte);
        }
    }
    (pass, TIMES)
}

/// Two callers push into their partitions, in a thread of its own each.
fn push_by_two<R: Threads + Wait + Sync>(
    rt: &R,
    alloc: Global,
    wal: &StartedWal,
    one: CallerPass,
    two: CallerPass,
) -> ((CallerPass, u8), (CallerPass, u8))
    requires one { IsAlone wal.now 1 1 0 one }
    requires two { IsAlone wal.now 2 1 0 two }
    ensures one { IsAlone wal.now 1 1 result.0.1 result.0.0 × (result.0.1 ≤ 100) }
    ensures two { IsAlone wal.now 2 1 result.1.1 result.1.0 × (result.1.1 ≤ 100) }
{
    join(
        rt,
        || -> (CallerPass, u8)
            requires { IsAlone wal.now 1 1 0 one }
            ensures { IsAlone wal.entry.now 1 1 result.1 result.0 × (result.1 ≤ 100) }
        { push_many(rt, alloc, wal, one, 0) },
        || -> (CallerPass, u8)
            requires { IsAlone wal.now 2 1 0 two }
            ensures { IsAlone wal.entry.now 2 1 result.1 result.0 × (result.1 ≤ 100) }
        { push_many(rt, alloc, wal, two, 1) },
    )
}

/// The state of a log whose three passes meet, of which two come with the number of their calls.
fn close_all(
    wal: StartedWal,
    mut pass: CallerPass,
    one: (CallerPass, u8),
    two: (CallerPass, u8),
) -> WalState<MemVolume>
    requires rest { IsAlone wal 0 65534 0 pass }
    requires one { IsAlone wal 1 1 one.1 one.0 }
    requires two { IsAlone wal 2 1 two.1 two.0 }
    ensures { HasOnly one.1 two.1 (book_of result) }
{
    wal.meet(&mut pass, one.0);
    wal.meet(&mut pass, two.0);
    let (named, _pass) = wal.close(pass);
    named.state
}

/// The state of a log into which two threads pushed `TIMES` changes each.
fn pushed_by_two<R: Threads + Wait + Sync>(
    rt: &R,
    alloc: Global,
) -> Result<WalState<MemVolume>, Fail>
    ensures { IfOk result (λ state. HasOnly 100 100 (book_of state)) }
{
    let (wal, pass, one, two) = share_for_two(alloc)?;
    let (one, two) = push_by_two(rt, alloc, &wal, one, two);
    if one.1 < TIMES || two.1 < TIMES {
        return Err("a push failed".into());
    }
    Ok(close_all(wal, pass, one, two))
}

/// The first byte of the key that the record deletes; none of another record.
fn deleted_byte(rec: &Rec) -> Option<u8> {
    match &rec.what {
        Change::Del { key } => key.bytes().first().copied(),
        _ => None,
    }
}

/// Whether the records of this partition are numbered and delete the keys of the first bytes, in order and `TIMES` of them.
fn are_in_order(records: &[Rec], part: u16) -> bool {
    let mut change = 0;
    for rec in records {
        if rec.part != part {
            continue;
        }
        if deleted_byte(rec) != Some(change) || rec.change != u64::from(change) + 1 {
            return false;
        }
        change = change.wrapping_add(1);
    }
    change == TIMES
}

#[test]
fn two_threads_push_a_hundred_changes_each(rt: HostRuntime) -> Result<(), Fail> {
    let alloc = rt.alloc();
    let mut state = pushed_by_two(&rt, alloc)?;
    assert_eq!(rt; state.last(), 200);
    state.sync(alloc, 0)?;
    let (_, records, _) = opened(alloc, state.into_volume(), 2)?;
    assert_eq!(rt; records.len(), 200);
    for (place, rec) in records.iter().enumerate() {
        assert!(rt; rec.number == place as u64 + 1);
    }
    assert!(rt; are_in_order(&records, 0) && are_in_order(&records, 1));
    Ok(())
}
