//! Laws of what answers rest on, each the contract of a function that does nothing.

ghost use Rattle.std.specs.Prelude.{◌≡◌, ℕ, List, [], map};
ghost use Rattle.mg_model.specs.declared.calls.Call.{Call};
ghost use Rattle.mg_model.specs.declared.calls.Change.{Change};
ghost use Rattle.mg_model.specs.History.{AllAllowed, after_changes, allows};
ghost use Rattle.mg_model.specs.State.{State, length_of, marks_of, step};
ghost use Rattle.mg_core.specs.Keeping.{Holds, Keeps};
ghost use Rattle.mg_core.specs.Layouts.{Layout};
ghost use Rattle.mg_core.specs.Need.{NeedSame, RestsOnNeed};
ghost use Rattle.mg_core.specs.Opening.{opened_state};

/// States of which the same is needed give the same replies, but to a compact of a part of the list, and each call leads them to
/// states of which the same is needed.
pub const fn equal_need_gives_equal_replies()
    ensures reply { (s t : State) (call : Call) → NeedSame s t → RestsOnNeed s call → (step s call).reply ≡ (step t call).reply }
    ensures state { (s t : State) (call : Call) → NeedSame s t → NeedSame (step s call).state (step t call).state }
{}

/// States of which the same is needed allow the same change and the same lists of changes, and allowed changes lead them to states
/// of which the same is needed.
pub const fn equal_need_stays_under_changes()
    ensures allowed { (s t : State) (change : Change) → NeedSame s t → allows s change ≡ allows t change }
    ensures all { (s t : State) (changes : List Change) → NeedSame s t → AllAllowed s changes → AllAllowed t changes }
    ensures state { (s t : State) (changes : List Change) → NeedSame s t → AllAllowed s changes → NeedSame (after_changes s changes) (after_changes t changes) }
{}

/// Where the layouts that a partition keeps stand for a state's whole list and for the places up to each of its marks, the same is
/// needed of the state and of what is opened from these layouts. They stand for the list that is opened too, and no memtable is frozen.
pub const fn opened_state_has_equal_need()
    ensures need { (l : Layout) (kept : List (ℕ × Layout)) (s : State) → Keeps l kept (length_of s) s → marks_of s ≡ map (λ k. k.0) kept
        → NeedSame s (opened_state l kept (length_of s) s.epoch) }
    ensures holds { (l : Layout) (kept : List (ℕ × Layout)) (s : State) → Keeps l kept (length_of s) s → Holds l kept (length_of s) [] (opened_state l kept (length_of s) s.epoch) }
{}
