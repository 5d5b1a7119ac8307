//! A short list and layouts of it, worked out by hand, as the contract of a function that does nothing.

ghost use Rattle.std.specs.Prelude.{◌≡◌, List, [], ◌∷◌, None, Some, take, true};
ghost use Rattle.mg_types.specs.declared.items.Dead.{Dead};
ghost use Rattle.mg_types.specs.declared.items.Item.{Item};
ghost use Rattle.mg_model.specs.Mutations.{live};
ghost use Rattle.mg_core.specs.ByHand.{first, half_cleaned, key_a, key_b, one_run, only, other, second, third, three_writes, two_runs};
ghost use Rattle.mg_core.specs.Layouts.{dead_of, empty_layout, entry_of};
ghost use Rattle.mg_core.specs.Lists.{occurs};
ghost use Rattle.mg_core.specs.Memtables.{laid_over};
ghost use Rattle.mg_core.specs.Opening.{opened_state};
ghost use Rattle.mg_core.specs.Reads.{read_by};
ghost use Rattle.mg_core.specs.Results.{IsClean, fresh};

/// Of three writes, the first and the third of one key: a flush of all leaves the first out, a read gives the third, a memtable with the
/// third alone hides the first, and a delete entry names the first after a merge. A cleaning of the first two drops the first alone,
/// and after one that didn't come to its record the delete entry goes on to name it. A list is opened with the record of the greatest
/// mark that has one.
pub const fn three_writes_by_hand()
    ensures flush { fresh three_writes 0 3 ≡ second ∷ third ∷ [] }
    ensures read { read_by two_runs key_a ≡ Some (3, 3 ∷ []) }
    ensures memtable { laid_over (live (take 2 three_writes)) (fresh three_writes 2 3) ≡ second ∷ third ∷ [] }
    ensures opening { (opened_state empty_layout ((1, only first) ∷ (2, only other) ∷ []) 2 0).mutations ≡ Some (record { key = key_b; doc = None }) ∷ None ∷ [] }
    ensures merge { occurs (λ d. d.seq) one_run.deletes 1 ≡ true }
    ensures clean { (segment : List Item) (rest : List Dead) → IsClean (first ∷ second ∷ []) (dead_of (entry_of first) ∷ []) segment rest → segment ≡ second ∷ [] }
    ensures half { occurs (λ d. d.seq) half_cleaned.deletes 1 ≡ true }
{}
