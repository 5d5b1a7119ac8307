//! The turn, and the calls on it.
ghost use Rattle.std.specs.Prelude.{◌≡◌, ◌+◌, ◌-◌, ◌≤◌, ◌<◌, ◌^◌, [], ◌∷◌, ◌++◌, true, false, length, IfOk, IfErr};
ghost use Rattle.mg_turn.specs.declared.rule.Slot.TheVariants.{Full};
ghost use Rattle.mg_turn.specs.History.{IsPrefix, AreApart, AreCalls, NoOthers, calls_in};
ghost use Rattle.mg_turn.specs.Passes.{IsWaiting, IsHolding, own_calls, first_pass, pass_after, met_with};

use crate::passes::Pass;
#[cfg(test)]
use crate::rule::TURN;
use crate::rule::{Law, Opening, Slot, View};
use crate::state::Stands;
use crate::steps::{
    close_table, copy, count, give_slot, join, learn, split, take_slot, take_state,
};
use atomic_table::{Badge, Refused, Table};
use std::alloc::{AllocFailed, Global};
use std::marker::Model;
use std::mem;
use std::snapshot::Snapshot;
use std::sync::Wait;

/// The most entries of a history. No more are entered.
pub const MOST_ENTRIES: u64 = (1 << 62) - 1;

/// The state of a turn, while its holder has it.
#[derive(Drop)]
pub struct Held<T> {
    pub state: T,
}

/// One state that threads take in turns, and one history of what they did with it.
#[derive(Drop)]
pub struct Turn<T: Stands> {
    table: Table<Slot<T, T::Entry>, View<T::Entry>, Opening<T>, Law<T>, Global>,
}

impl<T: Stands> Model for Turn<T> {
    ghost use Rattle.atomic_table.specs.Seated.{TableId, table_id_coded};
    ghost use Rattle.mg_turn.specs.Seats.{IsTurnTable};

    ghost Value = { TableId };

    ghost coded = { table_id_coded };

    ghost view = { λ t. t.table.shared.table_id };

    ghost invariant = { λ t. IsTurnTable t.table.shared.table_id };
}

impl<T: Stands> Turn<T> {
    /// A turn that is free, and the pass that has all parts of it. `first` stays as it is. Only this call takes memory; where it gets none, the state comes back.
    pub fn new(alloc: Global, first: u64, state: T) -> Result<(Turn<T>, Pass<T::Entry>), T>
        requires { T.stands first [] state }
        ensures made { IfOk result (λ made. made.1 ≡ first_pass made.0 first (T.faults state) (T.synced state)) }
        ensures back { IfErr result (λ back. back ≡ state) }
    {
        let opening = Opening {
            first,
            state: Snapshot::of(&state),
        };
        let mut slots = Vec::new(alloc);
        if let Err(failed) = slots.push(Slot::Full(state)) {
            let AllocFailed { value } = failed;
            slots.destroy_empty();
            return Err(value.into_state());
        }
        match Table::new(alloc, &[0, 0], slots, &opening) {
            Ok((table, seat)) => {
                let pass = Pass {
                    badge: seat.into_badge(),
                };
                Ok((Turn { table }, pass))
            }
            Err(Refused { slots }) => Err(only_state(slots)),
        }
    }

    /// A pass of a new caller, which has seen what `pass` has and has made no calls. It takes one part of `pass`.
    pub fn split(&self, pass: &mut Pass<T::Entry>) -> Pass<T::Entry>
        requires pass { IsWaiting self.now pass.old }
        requires parts { 2 ≤ pass.old.parts }
        requires numbers { 0 < pass.old.next }
        ensures kept { pass.new ≡ record pass.old { parts = pass.old.parts - 1; next = pass.old.next + 1 } }
        ensures made { result ≡ pass_after pass.old }
    {
        let mut seat = mem::replace(&mut pass.badge, Badge::blank()).into_seat();
        let made = split::<T>(&self.table.shared, &mut seat);
        pass.badge = seat.into_badge();
        Pass {
            badge: made.into_badge(),
        }
    }

    /// Waits until the turn is free, and takes it with its state. Of the entries that it shows, those of this caller, and of
    /// each caller that the pass has met, are exactly the calls that the pass has of it. These callers differ.
    pub fn take<R: Wait>(&self, rt: &R, pass: &mut Pass<T::Entry>) -> Held<T>
        requires { IsWaiting self.now pass.old }
        ensures pass { pass.new ≡ record pass.old { seen = pass.new.seen; faults = T.faults result.state; synced = T.synced result.state; holds = true } }
        ensures seen { IsPrefix pass.old.seen pass.new.seen }
        ensures stands { T.stands pass.old.first pass.new.seen result.state }
        ensures faults { pass.old.faults ≤ T.faults result.state }
        ensures synced { pass.old.synced ≤ T.synced result.state }
        ensures calls { AreCalls pass.new.seen (own_calls pass.new) }
        ensures apart { AreApart (own_calls pass.new) }
    {
        let mut seat = mem::replace(&mut pass.badge, Badge::blank()).into_seat();
        take_slot::<T, R>(&self.table.shared, rt, &mut seat);
        let state = take_state::<T>(&self.table.shared, &mut seat);
        pass.badge = seat.into_badge();
        Held { state }
    }

    /// How many entries the history has.
    pub fn entries(&self, pass: &mut Pass<T::Entry>, _held: &Held<T>) -> u64
        requires { IsHolding self.now pass.old }
        ensures count { result ≡ length pass.old.seen }
        ensures kept { pass.new ≡ pass.old }
    {
        let mut seat = mem::replace(&mut pass.badge, Badge::blank()).into_seat();
        let entries = learn::<T>(&self.table.shared, &mut seat);
        pass.badge = seat.into_badge();
        entries
    }

    /// Enters an entry of this caller, and tells its place in the history, from 1. The entry is not copied.
    pub fn enter(&self, pass: &mut Pass<T::Entry>, held: &Held<T>, entry: &T::Entry) -> u64
        requires pass { IsHolding self.now pass.old }
        requires room { length pass.old.seen < 2 ^ 62 - 1 }
        ensures place { result ≡ length pass.old.seen + 1 }
        ensures entered { pass.new ≡ record pass.old { calls = pass.old.calls ++ entry.now ∷ []; seen = pass.old.seen ++ (pass.old.caller, entry.now) ∷ [] } }
    {
        self.enter_snapshot(pass, held, Snapshot::of(entry))
    }

    /// Enters an entry of this caller of which a snapshot was taken, and tells its place in the history, from 1. So an entry
    /// can be moved into the state first and be entered after that, without a copy of it.
    pub fn enter_snapshot(
        &self,
        pass: &mut Pass<T::Entry>,
        _held: &Held<T>,
        entry: Snapshot<T::Entry>,
    ) -> u64
        requires pass { IsHolding self.now pass.old }
        requires room { length pass.old.seen < 2 ^ 62 - 1 }
        ensures place { result ≡ length pass.old.seen + 1 }
        ensures entered { pass.new ≡ record pass.old { calls = pass.old.calls ++ entry.value ∷ []; seen = pass.old.seen ++ (pass.old.caller, entry.value) ∷ [] } }
    {
        let mut seat = mem::replace(&mut pass.badge, Badge::blank()).into_seat();
        let entries = learn::<T>(&self.table.shared, &mut seat);
        count::<T>(&self.table.shared, &mut seat, entries, entry);
        pass.badge = seat.into_badge();
        entries + 1
    }

    /// Gives the turn back, with a state that stands for the history as it is now. It makes a system call only where a thread
    /// may wait for the turn.
    pub fn give(&self, pass: &mut Pass<T::Entry>, held: Held<T>)
        requires pass { IsHolding self.now pass.old }
        requires stands { T.stands pass.old.first pass.old.seen held.state }
        requires faults { pass.old.faults ≤ T.faults held.state }
        requires synced { pass.old.synced ≤ T.synced held.state }
        ensures { pass.new ≡ record pass.old { faults = T.faults held.state; synced = T.synced held.state; holds = false } }
    {
        let Held { state } = held;
        let mut seat = mem::replace(&mut pass.badge, Badge::blank()).into_seat();
        give_slot::<T>(&self.table.shared, &mut seat, state);
        pass.badge = seat.into_badge();
    }

    /// Whether the turn is taken and awaited, as the word says it at this moment.
    #[cfg(test)]
    pub(crate) fn word(&self) -> u64 {
        self.table.shared.peek(TURN)
    }

    /// Makes one pass out of two. The histories that they have seen are beginnings of one history, and the pass keeps the longer.
    pub fn meet(&self, pass: &mut Pass<T::Entry>, other: Pass<T::Entry>)
        requires pass { IsWaiting self.now pass.old }
        requires other { IsWaiting self.now other }
        ensures pass { pass.new ≡ met_with pass.old other }
        ensures seen { IsPrefix pass.old.seen pass.new.seen }
        ensures other { IsPrefix other.seen pass.new.seen }
        ensures apart { AreApart (own_calls pass.new) }
    {
        let Pass { badge } = other;
        let mut seat = mem::replace(&mut pass.badge, Badge::blank()).into_seat();
        join::<T>(&self.table.shared, &mut seat, badge.into_seat());
        learn::<T>(&self.table.shared, &mut seat);
        pass.badge = seat.into_badge();
    }

    /// Ends the turn: the state comes out, and the pass keeps what it has seen and has no part any more. Every other pass has met this one.
    pub fn close(self, pass: Pass<T::Entry>) -> (T, Pass<T::Entry>)
        requires pass { IsWaiting self pass }
        requires whole { pass.parts ≡ 65536 }
        ensures pass { result.1 ≡ record pass { parts = 0 } }
        ensures stands { T.stands pass.first pass.seen result.0 }
        ensures faults { pass.faults ≤ T.faults result.0 }
        ensures synced { pass.synced ≤ T.synced result.0 }
        ensures calls { AreCalls pass.seen (own_calls pass) }
        ensures apart { AreApart (own_calls pass) }
        ensures others { NoOthers pass.seen (own_calls pass) }
        ensures counted { length pass.seen ≡ calls_in (own_calls pass) }
    {
        let Turn { table } = self;
        let Pass { badge } = pass;
        let mut seat = badge.into_seat();
        let kept = copy::<T>(&table.shared, &mut seat);
        let state = close_table::<T>(table, seat);
        let pass = Pass {
            badge: kept.into_badge(),
        };
        (state, pass)
    }
}

fn only_state<T, E>(mut slots: Vec<Slot<T, E>>) -> T
    requires { (state : T) × (slots.items ≡ Full state ∷ []) }
    ensures { slots.items ≡ Full result ∷ [] }
{
    let last = slots.pop();
    slots.destroy_empty();
    match last {
        Some(slot) => slot.into_state(),
        None => unreachable!(),
    }
}
