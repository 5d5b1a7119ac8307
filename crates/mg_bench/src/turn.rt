//! Workloads over one turn: `count` entries in all, each in a turn of its own, by one, two and four threads.

ghost use Rattle.std.specs.Prelude.{◌≡◌, IfOk};
ghost use Rattle.mg_turn.specs.Passes.{IsWaiting, first_pass};

use anyhow::{Context, Result};
use mg_turn::tally::{Tally, count_by_two, enter_by_two, enter_many};
use mg_turn::{Pass, Turn};
use std::alloc::Global;
use std::sync::Wait;
use std::thread::{Threads, join};

/// A free turn that has counted nothing, and the pass that has all parts of it.
fn open(alloc: Global) -> Result<(Turn<Tally>, Pass<u64>)>
    ensures { IfOk result (λ made. made.1 ≡ first_pass made.0 0 0 0) }
{
    let tally = Tally {
        entries: 0,
        refused: 0,
    };
    Turn::new(alloc, 0, tally)
        .ok()
        .context("no memory for a turn")
}

/// One thread enters all.
pub fn turn_by_one<R: Wait>(rt: &R, alloc: Global, count: u64) -> Result<u64> {
    let (turn, pass) = open(alloc)?;
    let (pass, _) = enter_many(rt, &turn, pass, count);
    let (tally, _) = turn.close(pass);
    Ok(tally.entries)
}

/// Two threads enter a half each.
pub fn turn_by_two<R: Threads + Wait + Sync>(rt: &R, alloc: Global, count: u64) -> Result<u64> {
    let (tally, _) = count_by_two(rt, alloc, count / 2).context("no memory for a turn")?;
    Ok(tally.entries)
}

/// Four threads enter a quarter each.
pub fn turn_by_four<R: Threads + Wait + Sync>(rt: &R, alloc: Global, count: u64) -> Result<u64> {
    let (turn, mut one) = open(alloc)?;
    let two = turn.split(&mut one);
    let three = turn.split(&mut one);
    let four = turn.split(&mut one);
    let ((mut one, two), (three, four)) = enter_pairs(
        rt,
        &turn,
        (one, two),
        (three, four),
        count / 4,
    );
    turn.meet(&mut one, two);
    turn.meet(&mut one, three);
    turn.meet(&mut one, four);
    let (tally, _) = turn.close(one);
    Ok(tally.entries)
}

/// Four callers enter, each in a thread of its own.
fn enter_pairs<R: Threads + Wait + Sync>(
    rt: &R,
    turn: &Turn<Tally>,
    left: (Pass<u64>, Pass<u64>),
    right: (Pass<u64>, Pass<u64>),
    times: u64,
) -> ((Pass<u64>, Pass<u64>), (Pass<u64>, Pass<u64>))
    requires left { IsWaiting turn.now left.0 × IsWaiting turn.now left.1 }
    requires right { IsWaiting turn.now right.0 × IsWaiting turn.now right.1 }
    ensures left { IsWaiting turn.now result.0.0 × IsWaiting turn.now result.0.1 × (result.0.0.parts ≡ left.0.parts) × (result.0.1.parts ≡ left.1.parts) }
    ensures right { IsWaiting turn.now result.1.0 × IsWaiting turn.now result.1.1 × (result.1.0.parts ≡ right.0.parts) × (result.1.1.parts ≡ right.1.parts) }
{
    let (one, two) = left;
    let (three, four) = right;
    join(
        rt,
        || -> (Pass<u64>, Pass<u64>)
            requires { IsWaiting turn.now one × IsWaiting turn.now two }
            ensures { IsWaiting turn.entry.now result.0 × IsWaiting turn.entry.now result.1 × (result.0.parts ≡ one.parts) × (result.1.parts ≡ two.parts) }
        { enter_pair(rt, turn, one, two, times) },
        || -> (Pass<u64>, Pass<u64>)
            requires { IsWaiting turn.now three × IsWaiting turn.now four }
            ensures { IsWaiting turn.entry.now result.0 × IsWaiting turn.entry.now result.1 × (result.0.parts ≡ three.parts) × (result.1.parts ≡ four.parts) }
        { enter_pair(rt, turn, three, four, times) },
    )
}

/// Two callers enter, each in a thread of its own.
fn enter_pair<R: Threads + Wait + Sync>(
    rt: &R,
    turn: &Turn<Tally>,
    one: Pass<u64>,
    two: Pass<u64>,
    times: u64,
) -> (Pass<u64>, Pass<u64>)
    requires one { IsWaiting turn.now one }
    requires two { IsWaiting turn.now two }
    ensures one { IsWaiting turn.now result.0 × (result.0.parts ≡ one.parts) }
    ensures two { IsWaiting turn.now result.1 × (result.1.parts ≡ two.parts) }
{
    let ((one, _), (two, _)) = enter_by_two(rt, turn, one, two, times);
    (one, two)
}
