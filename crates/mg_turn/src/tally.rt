//! A state that counts the entries: the smallest that stands for a history. Two threads can count with it.
ghost use Rattle.std.specs.Prelude.{◌≡◌, ◌⊎◌, ◌+◌, ◌*◌, ◌-◌, ◌^◌, ◌<◌, ◌≤◌, ◌∷◌, ◌++◌, [], length, IfSome, IfNone};
ghost use Rattle.mg_turn.specs.History.{IsPrefix, AreApart, AreCalls, NoOthers, calls_by, calls_in};
ghost use Rattle.mg_turn.specs.Passes.{IsWaiting, HasEntered, AfterCalls, IsDoneOrFull, own_calls, first_pass, pass_after, met_with};

use crate::passes::Pass;
use crate::state::Stands;
use crate::turns::{MOST_ENTRIES, Turn};
use std::alloc::Global;
use std::sync::Wait;
use std::thread::{Threads, join};

/// How many entries there are, and how often one was refused.
#[derive(Drop)]
pub struct Tally {
    pub entries: u64,
    pub refused: u64,
}

impl Stands for Tally {
    ghost use Rattle.std.specs.Prelude.{◌≡◌, length};

    type Entry = u64;

    ghost stands = { λ first history tally. tally.entries ≡ length history };

    ghost faults = { λ tally. tally.refused };

    ghost synced = { λ tally. 0 };
}

impl Turn<Tally> {
    /// Takes the turn, enters one entry and gives the turn back. The answer is the entry's place, or none where the history is full.
    pub fn enter_one<R: Wait>(&self, rt: &R, pass: &mut Pass<u64>, entry: u64) -> Option<u64>
        requires { IsWaiting self.now pass.old }
        ensures entered { IfSome result (λ place. HasEntered pass.old pass.new entry × (place ≡ length pass.new.seen)) }
        ensures full { IfNone result ((2 ^ 62 - 1 ≤ length pass.new.seen) × (pass.new ≡ record pass.old { seen = pass.new.seen; faults = pass.new.faults; synced = 0 })) }
        ensures seen { IsPrefix pass.old.seen pass.new.seen }
        ensures faults { pass.old.faults ≤ pass.new.faults }
    {
        let mut held = self.take(rt, pass);
        if held.state.entries >= MOST_ENTRIES {
            held.state.refused = held.state.refused.saturating_add(1);
            self.give(pass, held);
            return None;
        }
        let place = self.enter(pass, &held, &entry);
        held.state.entries += 1;
        self.give(pass, held);
        Some(place)
    }

    /// Ends a turn of two passes.
    pub fn close_both(self, mut one: Pass<u64>, two: Pass<u64>) -> (Tally, Pass<u64>)
        requires one { IsWaiting self one }
        requires two { IsWaiting self two }
        requires parts { one.parts + two.parts ≡ 65536 }
        ensures pass { result.1 ≡ record (met_with one two) { parts = 0 } }
        ensures count { result.0.entries ≡ length result.1.seen }
        ensures calls { AreCalls result.1.seen (own_calls result.1) }
        ensures apart { AreApart (own_calls result.1) }
        ensures others { NoOthers result.1.seen (own_calls result.1) }
        ensures counted { length result.1.seen ≡ calls_in (own_calls result.1) }
    {
        self.meet(&mut one, two);
        self.close(one)
    }
}

/// Enters `times` entries, each in a turn of its own, or fewer where the history is full. The pass comes back with their number.
pub fn enter_many<R: Wait>(
    rt: &R,
    turn: &Turn<Tally>,
    mut pass: Pass<u64>,
    times: u64,
) -> (Pass<u64>, u64)
    requires { IsWaiting turn.now pass }
    ensures calls { AfterCalls turn.now pass result.0 (length pass.calls + result.1) }
    ensures number { IsDoneOrFull times result.0 result.1 }
{
    for entered in 0..times {
        if turn.enter_one(rt, &mut pass, entered).is_none() {
            return (pass, entered);
        }
    }
    (pass, times)
}

/// Two callers enter `times` entries each, in a thread of its own each.
pub fn enter_by_two<R: Threads + Wait + Sync>(
    rt: &R,
    turn: &Turn<Tally>,
    one: Pass<u64>,
    two: Pass<u64>,
    times: u64,
) -> ((Pass<u64>, u64), (Pass<u64>, u64))
    requires one { IsWaiting turn.now one }
    requires two { IsWaiting turn.now two }
    ensures one { AfterCalls turn.now one result.0.0 (length one.calls + result.0.1) × IsDoneOrFull times result.0.0 result.0.1 }
    ensures two { AfterCalls turn.now two result.1.0 (length two.calls + result.1.1) × IsDoneOrFull times result.1.0 result.1.1 }
{
    join(
        rt,
        || -> (Pass<u64>, u64)
            requires { IsWaiting turn.now one }
            ensures { AfterCalls turn.entry.now one result.0 (length one.calls + result.1) × IsDoneOrFull times result.0 result.1 }
        { enter_many(rt, turn, one, times) },
        || -> (Pass<u64>, u64)
            requires { IsWaiting turn.now two }
            ensures { AfterCalls turn.entry.now two result.0 (length two.calls + result.1) × IsDoneOrFull times result.0 result.1 }
        { enter_many(rt, turn, two, times) },
    )
}

/// A turn of two callers who enter `times` entries each, in a thread of its own each. The state and the pass at its end, or none where there is no memory or no room.
pub fn count_by_two<R: Threads + Wait + Sync>(
    rt: &R,
    alloc: Global,
    times: u64,
) -> Option<(Tally, Pass<u64>)>
    ensures history { IfSome result (λ end. (length end.1.seen ≡ 2 * times) × (length (calls_by 0 end.1.seen) ≡ times) × (length (calls_by 1 end.1.seen) ≡ times)) }
    ensures count { IfSome result (λ end. end.0.entries ≡ 2 * times) }
{
    let (turn, one, two) = open_for_two(alloc)?;
    let ((one, of_one), (two, of_two)) = enter_by_two(rt, &turn, one, two, times);
    let end = turn.close_both(one, two);
    if of_one < times || of_two < times {
        return None;
    }
    Some(end)
}

/// A free turn that has counted nothing, and the pass of caller 0, which has all parts of it.
pub fn open(alloc: Global) -> Option<(Turn<Tally>, Pass<u64>)>
    ensures { IfSome result (λ made. made.1 ≡ first_pass made.0 0 0 0) }
{
    let tally = Tally {
        entries: 0,
        refused: 0,
    };
    Turn::new(alloc, 0, tally).ok()
}

/// A free turn that has counted nothing, and the passes of callers 0 and 1.
pub(crate) fn open_for_two(alloc: Global) -> Option<(Turn<Tally>, Pass<u64>, Pass<u64>)>
    ensures first { IfSome result (λ made. made.1 ≡ record (first_pass made.0 0 0 0) { parts = 65535; next = 2 }) }
    ensures second { IfSome result (λ made. made.2 ≡ pass_after (first_pass made.0 0 0 0)) }
{
    let (turn, mut one) = open(alloc)?;
    let two = turn.split(&mut one);
    Some((turn, one, two))
}
