ghost use Rattle.std.specs.Prelude.{◌≡◌, ◌+◌, ◌++◌, [], ◌∷◌, length, IfSome, IsTrue};
ghost use Rattle.mg_turn.specs.Passes.{IsWaiting};
ghost use Rattle.mg_turn.specs.History.{IsPrefix};

use super::*;
use crate::rule::{AWAITED, HELD};
use crate::tally::{Tally, count_by_two, open, open_for_two};
use std::alloc::Global;
use std::snapshot::Snapshot;
use std::sync::Wait;
use std::test::Fail;
use std::thread::{self, Threads, join};
use std::time::{Clock, Duration};

/// Enters two entries in one turn, and tells their places.
fn enter_two<R: Wait>(rt: &R, turn: &Turn<Tally>, pass: &mut Pass<u64>) -> Option<(u64, u64)>
    requires { IsWaiting turn.now pass.old × (pass.old.calls ≡ []) }
    ensures { IfSome result (λ places. (pass.new ≡ record pass.old { calls = 7 ∷ 8 ∷ []; seen = pass.new.seen; faults = pass.new.faults; synced = 0 }) × (places.1 ≡ places.0 + 1)) }
{
    let mut held = turn.take(rt, pass);
    if held.state.entries >= MOST_ENTRIES - 1 {
        turn.give(pass, held);
        return None;
    }
    let first = turn.enter(pass, &held, &7);
    let second = turn.enter(pass, &held, &8);
    held.state.entries += 2;
    turn.give(pass, held);
    Some((first, second))
}

/// Takes the turn only to see how many entries there are.
fn look<R: Wait>(rt: &R, turn: &Turn<Tally>, pass: &mut Pass<u64>) -> u64
    requires { IsWaiting turn.now pass.old }
    ensures pass { pass.new ≡ record pass.old { seen = pass.new.seen; faults = pass.new.faults; synced = 0 } }
    ensures count { result ≡ length pass.new.seen }
    ensures seen { IsPrefix pass.old.seen pass.new.seen }
{
    let held = turn.take(rt, pass);
    let entries = turn.entries(pass, &held);
    turn.give(pass, held);
    entries
}

/// The worked example: one caller enters two entries in one turn, and a pass that is split from its pass then sees both.
/// The places, how many entries the second caller saw, and the state and the pass at the end.
fn two_callers<R: Wait>(rt: &R, alloc: Global) -> Option<((u64, u64), u64, Tally, Pass<u64>)>
    ensures history { IfSome result (λ end. end.3.seen ≡ (0, 7) ∷ (0, 8) ∷ []) }
{
    let (turn, mut one) = open(alloc)?;
    let places = enter_two(rt, &turn, &mut one)?;
    let mut two = turn.split(&mut one);
    let seen = look(rt, &turn, &mut two);
    let (tally, pass) = turn.close_both(one, two);
    Some((places, seen, tally, pass))
}

#[test]
fn a_second_caller_sees_two_entries_of_the_first(rt: HostRuntime) -> Result<(), Fail> {
    let (places, seen, tally, _pass) = two_callers(&rt, rt.alloc()).ok_or("no memory")?;
    assert_eq!(rt; places, (1, 2));
    assert!(rt; seen == 2 && tally.entries == 2);
    Ok(())
}

#[test]
fn two_threads_enter_a_hundred_entries_each(rt: HostRuntime) -> Result<(), Fail> {
    let (tally, _pass) = count_by_two(&rt, rt.alloc(), 100).ok_or("no memory")?;
    assert!(rt; tally.entries == 200 && tally.refused == 0);
    Ok(())
}

/// Waits until the turn's word is this one, ten seconds at most.
fn wait_for_word<R: Clock>(rt: &R, turn: &Turn<Tally>, word: u64) {
    for _ in 0..10_000 {
        if turn.word() == word {
            return;
        }
        thread::sleep(rt, Duration::from_millis(1));
    }
}

/// Holds the turn until another thread has parked.
fn hold_until_awaited<R: Wait + Clock>(rt: &R, turn: &Turn<Tally>, mut pass: Pass<u64>) -> Pass<u64>
    requires { IsWaiting turn.now pass }
    ensures { IsWaiting turn.now result × (result.parts ≡ pass.parts) }
{
    let held = turn.take(rt, &mut pass);
    wait_for_word(rt, turn, AWAITED);
    thread::sleep(rt, Duration::from_millis(50));
    turn.give(&mut pass, held);
    pass
}

/// Enters an entry once another thread holds the turn.
fn enter_once_held<R: Wait + Clock>(rt: &R, turn: &Turn<Tally>, mut pass: Pass<u64>) -> Pass<u64>
    requires { IsWaiting turn.now pass }
    ensures { IsWaiting turn.now result × (result.parts ≡ pass.parts) }
{
    wait_for_word(rt, turn, HELD);
    turn.enter_one(rt, &mut pass, 7);
    pass
}

/// One caller holds the turn until another thread has parked for it, and that one then enters an entry.
fn hand_over<R: Threads + Wait + Clock + Sync>(
    rt: &R,
    turn: &Turn<Tally>,
    one: Pass<u64>,
    two: Pass<u64>,
) -> (Pass<u64>, Pass<u64>)
    requires one { IsWaiting turn.now one }
    requires two { IsWaiting turn.now two }
    ensures one { IsWaiting turn.now result.0 × (result.0.parts ≡ one.parts) }
    ensures two { IsWaiting turn.now result.1 × (result.1.parts ≡ two.parts) }
{
    join(
        rt,
        || -> Pass<u64>
            requires { IsWaiting turn.now one }
            ensures { IsWaiting turn.entry.now result × (result.parts ≡ one.parts) }
        { hold_until_awaited(rt, turn, one) },
        || -> Pass<u64>
            requires { IsWaiting turn.now two }
            ensures { IsWaiting turn.entry.now result × (result.parts ≡ two.parts) }
        { enter_once_held(rt, turn, two) },
    )
}

/// A turn that a thread parks for. How many entries it has at the end.
fn park_and_enter<R: Threads + Wait + Clock + Sync>(rt: &R, alloc: Global) -> Option<u64> {
    let (turn, one, two) = open_for_two(alloc)?;
    let (one, two) = hand_over(rt, &turn, one, two);
    let (tally, _pass) = turn.close_both(one, two);
    Some(tally.entries)
}

// Where `give` wakes nobody, this test never ends.
#[test]
fn a_thread_that_parks_is_woken(rt: HostRuntime) -> Result<(), Fail> {
    assert_eq!(rt; park_and_enter(&rt, rt.alloc()), Some(1));
    Ok(())
}

/// Keeps the text that was put in last.
#[derive(Drop)]
struct Shelf {
    last: Vec<u8>,
}

impl Stands for Shelf {
    ghost use Rattle.std.specs.Prelude.{◌≡◌, ◌⊎◌, ◌++◌, [], ◌∷◌, ℕ, List, Vec};
    ghost use Rattle.std.specs.declared.alloc.Global.{Global};

    type Entry = Vec<u8>;

    ghost stands = { λ first history shelf. (history ≡ []) ⊎ ((before : List (ℕ × Vec ℕ Global)) × ((caller : ℕ) × (history ≡ before ++ (caller, shelf.last) ∷ []))) };

    ghost faults = { λ shelf. 0 };

    ghost synced = { λ shelf. 0 };
}

/// Puts a text in, and enters it after that: it is moved and not copied.
fn put_in<R: Wait>(rt: &R, turn: &Turn<Shelf>, pass: &mut Pass<Vec<u8>>, text: Vec<u8>) -> bool
    requires { IsWaiting turn.now pass.old }
    ensures waits { IsWaiting turn.now pass.new × (pass.new.parts ≡ pass.old.parts) }
    ensures entered { IsTrue result → pass.new.calls ≡ pass.old.calls ++ text ∷ [] }
{
    let mut held = turn.take(rt, pass);
    if turn.entries(pass, &held) >= MOST_ENTRIES {
        turn.give(pass, held);
        return false;
    }
    let note = Snapshot::of(&text);
    held.state.last = text;
    turn.enter_snapshot(pass, &held, note);
    turn.give(pass, held);
    true
}

/// The text that a shelf has once it was put in by way of a turn.
fn put_in_one<R: Wait>(rt: &R, alloc: Global, text: Vec<u8>) -> Option<Vec<u8>> {
    let shelf = Shelf {
        last: Vec::new(alloc),
    };
    let (turn, mut pass) = Turn::new(alloc, 0, shelf).ok()?;
    put_in(rt, &turn, &mut pass, text);
    let (shelf, _pass) = turn.close(pass);
    Some(shelf.last)
}

#[test]
fn an_entry_is_moved_into_the_state_first(rt: HostRuntime) -> Result<(), Fail> {
    let text = Vec::from_slice(rt.alloc(), b"text")?;
    let last = put_in_one(&rt, rt.alloc(), text).ok_or("no memory")?;
    assert_eq!(rt; last.as_slice(), b"text".as_slice());
    Ok(())
}
