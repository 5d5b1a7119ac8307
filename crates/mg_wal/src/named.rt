//! The log as the state of a turn.

ghost use Rattle.std.specs.Prelude.{◌≡◌, ◌+◌, ◌<◌, ◌≤◌, ◌^◌, ◌⊎◌, ℕ, List, [], length, IfOk, IfErr, IfSome, OnOk, OnErr, IsTrue};
ghost use Rattle.mg_turn.specs.History.{IsPrefix};
ghost use Rattle.mg_turn.specs.Passes.{first_pass, HasEntered, IsWaiting};
ghost use Rattle.mg_types.specs.declared.faults.Fault.TheVariants.{NoMemory};
ghost use Rattle.mg_wal_format.specs.Records.{mark_of};
ghost use Rattle.mg_wal.specs.Book.{parts_in, synced_of, HasRoom, IsWorn};
ghost use Rattle.mg_wal.specs.Lists.{last_opened, opened_counts, Basis, Books, KeepsBooksWith};
ghost use Rattle.mg_wal.specs.Shares.{last_in, IsWornAt};
ghost use Rattle.mg_wal.specs.States.{book_of, volume_of};
ghost use Rattle.mg_wal.specs.Stories.{KeepsReachWith, Reaches};

use crate::state::WalState;
use mg_disk::Volume;
use mg_model::Change;
use mg_turn::{Pass, Stands, Turn};
use mg_types::Fault;
use std::alloc::Global;
use std::marker::{Brand, PhantomData};
use std::sync::Wait;

/// Names, for contracts alone, what one opening of the log found, the volume's moment when `recover` was given it, and what is
/// released.
pub trait LogNames {
    ghost basis: { Basis };

    ghost since: { ℕ };

    ghost released: { List ℕ };
}

/// A state of the log with its names.
#[derive(Drop)]
pub struct NamedState<V: Volume, N: LogNames> {
    pub state: WalState<V>,
    of: PhantomData<N>,
}

impl<V: Volume, N: LogNames> NamedState<V, N> {
    /// The state, under these names.
    pub fn new(state: WalState<V>) -> NamedState<V, N>
        ensures { result.state ≡ state }
    {
        NamedState {
            state,
            of: PhantomData,
        }
    }

    /// Reserves a change and pushes it, and answers its number. After an error the list is as before.
    fn push_next(&mut self, entry: &(u16, Change)) -> Result<u64, Fault>
        requires part { entry.now.0 < parts_in (book_of self.old.state) }
        requires mark { IfSome (mark_of entry.now.1) (λ mark. mark < 2 ^ 62) }
        ensures number { IfOk result (λ number. number ≡ (book_of self.old.state).last + 1) }
        ensures room { OnOk result (HasRoom (book_of self.old.state) entry.now.0) }
        ensures more { OnOk result (KeepsBooksWith entry.now (book_of self.old.state) (book_of self.new.state)) }
        ensures reaches { IsTrue V.tells → OnOk result (KeepsReachWith entry.now (book_of self.old.state) (book_of self.new.state)
            (V.view (volume_of self.old.state)) (V.view (volume_of self.new.state))) }
        ensures err { IfErr result (λ fault. (fault ≡ NoMemory) ⊎ IsWorn (book_of self.old.state) entry.now.0 fault) }
        ensures same { OnErr result (book_of self.new.state ≡ book_of self.old.state) }
        ensures volume { volume_of self.new.state ≡ volume_of self.old.state }
        ensures reach { (book_of self.new.state).reach ≡ (book_of self.old.state).reach }
        ensures released { (book_of self.new.state).released ≡ (book_of self.old.state).released }
    {
        let (part, what) = entry;
        self.state.reserve(*part, what)?;
        Ok(self.state.push())
    }
}

/// The log behind a turn. The pass of partition p has the caller p + 1.
pub type Wal<V, N> = Turn<NamedState<V, N>>;

impl<V: Volume, N: LogNames> Stands for NamedState<V, N> {
    ghost use Rattle.std.specs.Prelude.{◌≡◌, ◌+◌, IsTrue, map};
    ghost use Rattle.mg_wal.specs.Book.{synced_of};
    ghost use Rattle.mg_wal.specs.Lists.{last_opened, Books};
    ghost use Rattle.mg_wal.specs.Shares.{AreOfCallers, changes_in};
    ghost use Rattle.mg_wal.specs.States.{book_of, volume_of};
    ghost use Rattle.mg_wal.specs.Stories.{Reaches};

    type Entry = (u16, Change);

    ghost stands = { λ first history log. (first ≡ last_opened N.basis) × AreOfCallers history
        × ((book_of log.state).released ≡ N.released)
        × Books N.basis (changes_in history) (book_of log.state)
        × (IsTrue V.tells → Reaches N.basis (changes_in history) N.since N.basis.reached (book_of log.state) (V.view (volume_of log.state))) };

    ghost faults = { λ log. V.faults (volume_of log.state) };

    ghost synced = { λ log. synced_of (book_of log.state) };
}

/// Puts the log behind a turn, where nothing was pushed since the opening. The pass of caller 0 has all parts. Where there is no
/// memory, the state comes back.
pub fn share<V: Volume, N: LogNames>(
    alloc: Global,
    state: WalState<V>,
) -> Result<(Wal<V, N>, Pass<(u16, Change)>), WalState<V>>
    requires list { Books N.basis [] (book_of state) }
    requires released { (book_of state).released ≡ N.released }
    requires reaches { IsTrue V.tells → Reaches N.basis [] N.since N.basis.reached (book_of state) (V.view (volume_of state)) }
    ensures made { IfOk result (λ made. made.1 ≡ first_pass made.0 (last_opened N.basis) (V.faults (volume_of state)) (synced_of (book_of state))) }
    ensures back { IfErr result (λ back. back ≡ state) }
{
    let first = state.last();
    match Turn::new(alloc, first, NamedState::new(state)) {
        Ok(made) => Ok(made),
        Err(NamedState { state, of: _ }) => Err(state),
    }
}

/// Takes the turn, reserves a change and pushes it, and gives the turn back. The answer is the record's number. After an error the
/// list is as the last holder left it.
pub fn push_one<V: Volume, N: LogNames, R: Wait>(
    rt: &R,
    wal: &Wal<V, N>,
    pass: &mut Pass<(u16, Change)>,
    entry: &(u16, Change),
) -> Result<u64, Fault>
    requires pass { IsWaiting wal.now pass.old }
    requires caller { pass.old.caller ≡ entry.now.0 + 1 }
    requires part { entry.now.0 < length N.basis.low }
    requires mark { IfSome (mark_of entry.now.1) (λ mark. mark < 2 ^ 62) }
    ensures entered { IfOk result (λ number. HasEntered pass.old pass.new entry.now × (number ≡ last_in N.basis pass.new.seen)) }
    ensures err { IfErr result (λ fault. (fault ≡ NoMemory) ⊎ IsWornAt (last_in N.basis pass.new.seen) (opened_counts N.basis entry.now.0 + length pass.old.calls) fault) }
    ensures kept { OnErr result (pass.new ≡ record pass.old { seen = pass.new.seen; faults = pass.new.faults; synced = pass.new.synced }) }
    ensures seen { IsPrefix pass.old.seen pass.new.seen }
    ensures faults { pass.old.faults ≤ pass.new.faults }
    ensures synced { pass.old.synced ≤ pass.new.synced }
{
    let mut held = wal.take(rt, pass);
    match held.state.push_next(entry) {
        Ok(number) => {
            wal.enter(pass, &held, entry);
            wal.give(pass, held);
            Ok(number)
        }
        Err(fault) => {
            wal.give(pass, held);
            Err(fault)
        }
    }
}

impl LogNames for Brand {
    ghost basis = { record { low = []; first = 1; opened = []; reached = 0; newest = 0 } };

    ghost since = { 0 };

    ghost released = { [] };
}
