//! Laws of the definitions, each the contract of a function that does nothing.

ghost use Rattle.std.specs.Prelude.{◌≡◌, ◌<◌, ◌≤◌, ◌++◌, ℕ, IsTrue, List, map, Some};
ghost use Rattle.std.specs.List.{AllByRecursion};
ghost use Rattle.mg_model.specs.declared.calls.Call.{Call};
ghost use Rattle.mg_model.specs.declared.calls.Change.{Change};
ghost use Rattle.mg_model.specs.declared.replies.Answer.{Answer};
ghost use Rattle.mg_model.specs.State.{HasRoom, InLimits, IsState, length_of, Rises, State, new_state, step};
ghost use Rattle.mg_model.specs.History.{History, after_calls, after_change, after_changes, AllAllowed, allows, call_at, call_for, caller_at, change_of, changes_of, low, own_calls, own_places, state_at};
ghost use Rattle.mg_model.specs.Placed.{changes_at, changes_in, CutsBehind, history_in, Opening, Placed, up_to};
ghost use Rattle.mg_model.specs.Fits.{Fits};

/// A history's changes, made one after another, lead to the state to which its calls lead. So a log of
/// changes is enough to bring a partition back.
pub fn changes_lead_where_calls_lead()
    ensures { (s : State) (calls : List Call) → after_changes s (changes_of s calls) ≡ after_calls s calls }
{}

/// A state of which nothing is known but calls from the beginning is one, and so is what an allowed change makes of one:
/// marks rise, are few enough and are places of the list.
pub fn states_stay_states()
    ensures new { IsState new_state }
    ensures step { (s : State) (call : Call) → IsState s → IsState (step s call).state }
    ensures change { (s : State) (change : Change) → IsTrue (allows s change) → IsState s → IsState (after_change s change) }
{}

/// The changes that a state allows are exactly those that some call makes.
pub fn calls_make_the_allowed_changes()
    ensures allowed { (s : State) (call : Call) (change : Change) → change_of s call ≡ Some change → IsTrue (allows s change) }
    ensures made { (s : State) (change : Change) → IsTrue (allows s change) → change_of s (call_for change) ≡ Some change }
{}

/// The same of a list of changes: those of some calls are allowed one after the other, a state stays one through
/// allowed changes, and these are the changes of the calls for them. So whoever reads changes back needs to test
/// only whether each is allowed.
pub fn lists_of_changes_are_those_of_calls()
    ensures allowed { (s : State) (calls : List Call) → AllAllowed s (changes_of s calls) }
    ensures state { (s : State) (changes : List Change) → AllAllowed s changes → IsState s → IsState (after_changes s changes) }
    ensures made { (s : State) (changes : List Change) → AllAllowed s changes → changes_of s (map call_for changes) ≡ changes }
{}

/// A call that has room keeps the length and the epoch in their limits.
pub fn room_keeps_the_limits()
    ensures new { InLimits new_state }
    ensures step { (s : State) (call : Call) → HasRoom s call → InLimits s → InLimits (step s call).state }
{}

/// At a caller's own places stand this caller's calls, in their order. So no place is that of two callers.
pub fn own_places_have_own_calls()
    ensures calls { (history : History) (caller : ℕ) → map (call_at history) (own_places history caller) ≡ map (λ call. Some call) (own_calls history caller) }
    ensures callers { (history : History) (caller : ℕ) → AllByRecursion (λ place. caller_at history place ≡ Some caller) (own_places history caller) }
    ensures rise { (history : History) (caller : ℕ) → Rises (own_places history caller) }
{}

/// `low` is at most each length between the two places, and no number that is so is greater.
pub fn low_is_the_least_length()
    ensures below { (start : State) (history : History) (from to place : ℕ) → from < place → place ≤ to → low start history from to ≤ length_of (state_at start history place) }
    ensures greatest { (start : State) (history : History) (from to bound : ℕ) → from < to
        → ((place : ℕ) → from < place → place ≤ to → bound ≤ length_of (state_at start history place)) → bound ≤ low start history from to }
{}

/// An answer that fits a history goes on fitting it as it grows.
pub fn answers_go_on_fitting()
    ensures { (start : State) (history more : History) (call : Call) (answer : Answer) → Fits start history call answer → Fits start (history ++ more) call answer }
{}

/// The one order of all partitions' changes has each partition's own changes, in their order.
pub fn one_order_serves_all_partitions()
    ensures { (opening : Opening) (placed : List Placed) (part : ℕ) → changes_at (changes_in opening placed) part ≡ changes_of (opening part) (map (λ e. e.1) (history_in placed part)) }
{}

/// One number of the shared log cuts all partitions: the changes up to it are those of the first placed calls, so each
/// partition is left with a front of its history and the state to which this leads. A cut at a later number has all that
/// one at an earlier number has.
pub fn one_cut_leaves_fronts()
    ensures fronts { (opening : Opening) (counted number : ℕ) (placed : List Placed) → CutsBehind opening counted number placed }
    ensures later { (counted earlier number : ℕ) (changes : List (ℕ × Change)) → earlier ≤ number → up_to counted earlier (up_to counted number changes) ≡ up_to counted earlier changes }
{}
