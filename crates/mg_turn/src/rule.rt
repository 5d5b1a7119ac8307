//! What the table of a turn keeps, and what each step on it tells. No value of a `View` or of `Counts` is made.
ghost use Rattle.std.specs.Prelude.{◌≡◌, ◌≢◌};
ghost use Rattle.mg_turn.specs.Rule.{put_back, learned, counted, took_back};

use crate::state::{Counts, Stands};
use atomic_table::{Join, Play, Split, TableRule};
use std::collections::LinkedList;
use std::marker::PhantomData;
use std::snapshot::Snapshot;

/// Word 0: whether the turn is taken, as one of the next three numbers.
pub(crate) const TURN: usize = 0;

/// Nobody holds the turn.
pub(crate) const FREE: u64 = 0;

/// The turn is held, and nobody waits for it.
pub(crate) const HELD: u64 = 1;

/// The turn is held, and somebody may wait for it.
pub(crate) const AWAITED: u64 = 2;

/// Word 1: how many entries the history has.
pub(crate) const COUNT: usize = 1;

/// The slot of the state.
pub(crate) const STATE: usize = 0;

/// How a seat stands to the turn.
pub enum Hold {
    /// It does not hold the turn.
    Free,
    /// It holds the turn, and the slot is with it.
    Out,
    /// It holds the turn, and the slot is at home and empty.
    Home,
}

/// What a seat knows.
pub struct View<E> {
    pub first: u64,
    pub caller: u64,
    pub calls: LinkedList<E>,
    pub met: LinkedList<(u64, LinkedList<E>)>,
    pub seen: LinkedList<(u64, E)>,
    // the shorter of two histories that came together
    pub told: LinkedList<(u64, E)>,
    pub counts: Counts,
    pub parts: u64,
    pub next: u64,
    pub hold: Hold,
}

/// What the slot holds. A note is never put there: it carries an entry to the step that enters it.
pub enum Slot<T, E> {
    Empty,
    Full(T),
    Note(Snapshot<E>),
}

impl<T: Drop, E> Drop for Slot<T, E> {
    fn drop(self) {
        match self {
            Slot::Empty => {}
            Slot::Full(state) => drop(state),
            Slot::Note(note) => drop(note),
        }
    }
}

impl<T, E> Slot<T, E> {
    ghost use Rattle.mg_turn.specs.declared.rule.Slot.TheVariants.{Full};

    /// The state of a full slot.
    pub(crate) fn into_state(self) -> T
        requires { (state : T) × (self ≡ Full state) }
        ensures { self ≡ Full result }
    {
        match self {
            Slot::Full(state) => state,
            Slot::Empty => unreachable!(),
            Slot::Note(_) => unreachable!(),
        }
    }

    /// Lets go of a slot that has no state.
    pub(crate) fn discard(self)
        requires { (state : T) → self ≢ Full state }
    {
        match self {
            Slot::Empty => {}
            Slot::Note(note) => drop(note),
            Slot::Full(_state) => unreachable!(),
        }
    }
}

/// What is fixed when a turn is made.
pub struct Opening<T> {
    pub first: u64,
    pub state: Snapshot<T>,
}

impl<T> Drop for Opening<T> {
    fn drop(self) {
        let Self { first: _, state: _ } = self;
    }
}

/// The rule of a turn.
pub struct Law<T> {
    of: PhantomData<T>,
}

impl<T: Stands> TableRule<Slot<T, T::Entry>, View<T::Entry>, Opening<T>> for Law<T> {
    ghost use Rattle.mg_turn.specs.Rule.{Holds, opening_view, counts_of};

    ghost holds = { Holds T.stands (counts_of T.faults T.synced) };

    ghost first = { λ o. opening_view o.first (counts_of T.faults T.synced o.state.value) };
}

/// The turn is taken, with the slot, or was found taken.
pub(crate) struct Take<T> {
    of: PhantomData<T>,
}

impl<T: Stands> Play<Slot<T, T::Entry>, View<T::Entry>> for Take<T> {
    ghost use Rattle.mg_turn.specs.Rule.{counts_of, took};

    ghost then = { took T.stands (counts_of T.faults T.synced) };
}

/// The empty slot goes home while the turn is held.
pub(crate) struct PutBack;

impl<T, E> Play<Slot<T, E>, View<E>> for PutBack {
    ghost then = { put_back };
}

/// The empty slot comes to the holder.
pub(crate) struct TakeBack;

impl<T, E> Play<Slot<T, E>, View<E>> for TakeBack {
    ghost then = { took_back };
}

/// The number of entries is read.
pub(crate) struct Learn;

impl<T, E> Play<Slot<T, E>, View<E>> for Learn {
    ghost then = { learned };
}

/// The entry of the note is entered.
pub(crate) struct Count;

impl<T, E> Play<Slot<T, E>, View<E>> for Count {
    ghost then = { counted };
}

/// The turn is given back, with the slot and the state in it.
pub(crate) struct Give<T> {
    of: PhantomData<T>,
}

impl<T: Stands> Play<Slot<T, T::Entry>, View<T::Entry>> for Give<T> {
    ghost use Rattle.mg_turn.specs.Rule.{counts_of, gave};

    ghost then = { gave (counts_of T.faults T.synced) };
}

/// A new caller's view is cut off.
pub(crate) struct NewCaller;

impl<E> Split<View<E>> for NewCaller {
    ghost use Rattle.mg_turn.specs.Rule.{splitter, new_caller};

    ghost left = { splitter };

    ghost right = { new_caller };
}

/// A copy is cut off that takes no more part.
pub(crate) struct Keepsake;

impl<E> Split<View<E>> for Keepsake {
    ghost use Rattle.mg_turn.specs.Rule.{keepsake};

    ghost left = { λ v. v };

    ghost right = { keepsake };
}

/// Two views become one.
pub(crate) struct Meet;

impl<E> Join<View<E>> for Meet {
    ghost use Rattle.mg_turn.specs.Rule.{joined, nobody};

    ghost both = { joined };

    ghost spent = { nobody };
}
