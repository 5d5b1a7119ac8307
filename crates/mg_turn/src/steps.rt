//! The steps on a turn's table, by seats.
ghost use Rattle.std.specs.Prelude.{◌≡◌, ◌≢◌, ◌+◌, ◌≤◌, ◌<◌, ◌^◌, [], ◌∷◌, length, MatchBool};
ghost use Rattle.mg_turn.specs.History.{AreApart, IsPrefix};
ghost use Rattle.mg_turn.specs.Rule.{counts_of, HasTaken, NotAbove, entered, own, splitter, new_caller, keepsake, joined, whole, HasClosed};
ghost use Rattle.mg_turn.specs.Seats.{IsAt, IsSame};
ghost use Rattle.mg_turn.specs.declared.rule.Hold.TheVariants.{Free, Out, Home};
ghost use Rattle.mg_turn.specs.declared.rule.Slot.TheVariants.{Empty, Full};

use crate::rule::{
    AWAITED, COUNT, Count, FREE, Give, HELD, Keepsake, Law, Learn, Meet, NewCaller, Opening,
    PutBack, STATE, Slot, TURN, Take, TakeBack, View,
};
use crate::state::Stands;
use atomic_table::{Seat, Shared, Table};
use std::alloc::Global;
use std::snapshot::Snapshot;
use std::sync::Wait;

/// The table of a turn.
pub(crate) type Board<T> = Shared<
    Slot<T, <T as Stands>::Entry>,
    View<<T as Stands>::Entry>,
    Opening<T>,
    Law<T>,
>;

/// A seat at it.
pub(crate) type Place<T> = Seat<Slot<T, <T as Stands>::Entry>, View<<T as Stands>::Entry>>;

/// Takes the turn and its full slot, if the turn is free.
fn try_take<T: Stands>(board: &Board<T>, seat: &mut Place<T>) -> bool
    requires { IsAt board.now.table_id seat.old × (seat.old.me.1 ≡ []) }
    ensures seat { IsSame seat.old seat.new }
    ensures taken { MatchBool result (HasTaken T.stands (counts_of T.faults T.synced) seat.old.me seat.new.me) (seat.new.me ≡ seat.old.me) }
{
    board.compare_exchange::<Take<T>>(seat, TURN, FREE, HELD) == FREE
}

/// Takes the turn and its full slot, if the turn is free, and else leaves word that somebody waits.
fn take_or_wait<T: Stands>(board: &Board<T>, seat: &mut Place<T>) -> bool
    requires { IsAt board.now.table_id seat.old × (seat.old.me.1 ≡ []) }
    ensures seat { IsSame seat.old seat.new }
    ensures taken { MatchBool result (HasTaken T.stands (counts_of T.faults T.synced) seat.old.me seat.new.me) (seat.new.me ≡ seat.old.me) }
{
    board.swap::<Take<T>>(seat, TURN, AWAITED) == FREE
}

/// Takes the turn and its full slot, once another thread has given it. Whoever waited leaves word when it takes the turn,
/// since others may still wait.
fn wait_and_take<T: Stands, R: Wait>(board: &Board<T>, rt: &R, seat: &mut Place<T>)
    requires { IsAt board.now.table_id seat.old × (seat.old.me.1 ≡ []) }
    ensures seat { IsSame seat.old seat.new }
    ensures taken { HasTaken T.stands (counts_of T.faults T.synced) seat.old.me seat.new.me }
{
    for _ in rt.forever() {
        if take_or_wait::<T>(board, seat) {
            return;
        }
        board.park(rt, TURN, AWAITED as u32);
    }
    unreachable!()
}

/// Takes the turn and its full slot. It waits until the turn is free.
pub(crate) fn take_slot<T: Stands, R: Wait>(board: &Board<T>, rt: &R, seat: &mut Place<T>)
    requires { IsAt board.now.table_id seat.old × (seat.old.me.1 ≡ []) }
    ensures seat { IsSame seat.old seat.new }
    ensures taken { HasTaken T.stands (counts_of T.faults T.synced) seat.old.me seat.new.me }
{
    if !try_take::<T>(board, seat) {
        wait_and_take::<T, R>(board, rt, seat);
    }
}

/// The state out of the full slot, which goes home empty.
pub(crate) fn take_state<T: Stands>(board: &Board<T>, seat: &mut Place<T>) -> T
    requires seat { IsAt board.now.table_id seat.old × (seat.old.me.0.hold ≡ Out) }
    requires full { (state : T) × (seat.old.me.1 ≡ (0, Full state) ∷ []) }
    ensures seat { IsSame seat.old seat.new }
    ensures home { seat.new.me ≡ (record seat.old.me.0 { hold = Home }, []) }
    ensures state { seat.old.me.1 ≡ (0, Full result) ∷ [] }
{
    let state = board.exchange(seat, STATE, Slot::Empty).into_state();
    board.load::<PutBack>(seat, TURN);
    state
}

/// The number of entries, which only a holder knows to be that of what it has seen.
pub(crate) fn learn<T: Stands>(board: &Board<T>, seat: &mut Place<T>) -> u64
    requires seat { IsAt board.now.table_id seat.old × (seat.old.me.1 ≡ []) }
    ensures seat { IsSame seat.old seat.new }
    ensures me { seat.new.me ≡ seat.old.me }
    ensures count { seat.old.me.0.hold ≢ Free → result ≡ length seat.old.me.0.seen }
    ensures told { length seat.old.me.0.told ≤ length seat.old.me.0.seen → IsPrefix seat.old.me.0.told seat.old.me.0.seen }
    ensures apart { AreApart (own seat.old.me.0) }
{
    board.load::<Learn>(seat, COUNT)
}

/// Enters an entry after the `count` that the history has.
pub(crate) fn count<T: Stands>(
    board: &Board<T>,
    seat: &mut Place<T>,
    count: u64,
    entry: Snapshot<T::Entry>,
)
    requires seat { IsAt board.now.table_id seat.old × (seat.old.me.0.hold ≡ Home) × (seat.old.me.1 ≡ []) }
    requires count { count ≡ length seat.old.me.0.seen }
    requires room { count < 2 ^ 62 }
    ensures seat { IsSame seat.old seat.new }
    ensures entered { seat.new.me ≡ (entered seat.old.me.0 entry.value, []) }
{
    let note = Slot::Note(entry);
    board.compare_exchange_with::<Count>(seat, COUNT, count, count + 1, &note);
    note.discard();
}

/// Puts the state into the slot, and gives the turn back with it. It wakes one thread where any may wait, and else makes no
/// system call.
pub(crate) fn give_slot<T: Stands>(board: &Board<T>, seat: &mut Place<T>, state: T)
    requires seat { IsAt board.now.table_id seat.old × (seat.old.me.0.hold ≡ Home) × (seat.old.me.1 ≡ []) }
    requires stands { T.stands seat.old.me.0.first seat.old.me.0.seen state }
    requires counts { NotAbove seat.old.me.0.counts (counts_of T.faults T.synced state) }
    ensures seat { IsSame seat.old seat.new }
    ensures free { seat.new.me ≡ (record seat.old.me.0 { counts = counts_of T.faults T.synced state; hold = Free }, []) }
{
    board.load::<TakeBack>(seat, TURN);
    board.exchange(seat, STATE, Slot::Full(state)).discard();
    if board.swap::<Give<T>>(seat, TURN, FREE) == AWAITED {
        board.wake_one(TURN);
    }
}

/// A seat of a new caller.
pub(crate) fn split<T: Stands>(board: &Board<T>, seat: &mut Place<T>) -> Place<T>
    requires seat { IsAt board.now.table_id seat.old × (seat.old.me.1 ≡ []) × (seat.old.me.0.hold ≡ Free) }
    requires parts { 2 ≤ seat.old.me.0.parts }
    requires next { 0 < seat.old.me.0.next }
    ensures kept { IsSame seat.old seat.new × (seat.new.me ≡ (splitter seat.old.me.0, [])) }
    ensures made { (result.table_id ≡ seat.old.table_id) × (result.me ≡ (new_caller seat.old.me.0, [])) }
{
    board.split_seat::<NewCaller>(seat)
}

/// One seat out of two.
pub(crate) fn join<T: Stands>(board: &Board<T>, seat: &mut Place<T>, other: Place<T>)
    requires seat { IsAt board.now.table_id seat.old × (seat.old.me.1 ≡ []) × (seat.old.me.0.hold ≡ Free) }
    requires other { IsAt board.now.table_id other × (other.me.1 ≡ []) × (other.me.0.hold ≡ Free) }
    ensures { IsSame seat.old seat.new × (seat.new.me ≡ (joined seat.old.me.0 other.me.0, [])) }
{
    board.join_seat::<Meet>(seat, other);
}

/// A seat with a copy of the view, which takes no more part.
pub(crate) fn copy<T: Stands>(board: &Board<T>, seat: &mut Place<T>) -> Place<T>
    requires { IsAt board.now.table_id seat.old × (seat.old.me.1 ≡ []) × (seat.old.me.0.hold ≡ Free) }
    ensures kept { IsSame seat.old seat.new × (seat.new.me ≡ seat.old.me) }
    ensures made { (result.table_id ≡ seat.old.table_id) × (result.me ≡ (keepsake seat.old.me.0, [])) }
{
    board.split_seat::<Keepsake>(seat)
}

/// The state of a turn that ends. The seat has every part.
pub(crate) fn close_table<T: Stands>(
    table: Table<Slot<T, T::Entry>, View<T::Entry>, Opening<T>, Law<T>, Global>,
    seat: Place<T>,
) -> T
    requires seat { IsAt table.shared.table_id seat × (seat.me.0.hold ≡ Free) }
    requires whole { seat.me.0.parts ≡ whole }
    ensures { HasClosed T.stands (counts_of T.faults T.synced) seat.me.0 result }
{
    let mut closed = table.close_with(seat);
    let state = closed.take(STATE).into_state();
    closed.free();
    state
}
