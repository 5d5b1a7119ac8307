//! Laws of memtables, each the contract of a function that does nothing. What a memtable of the interval above `lo` up to `hi` has is
//! `fresh m lo hi`: the newest mutation of each key in the interval, in the order of their numbers.

ghost use Rattle.std.specs.Prelude.{◌≡◌, ◌+◌, ◌≤◌, ◌++◌, ℕ, List, [], ◌∷◌, Some, length, take};
ghost use Rattle.std.specs.Option.{option_map};
ghost use Rattle.mg_types.specs.declared.keys.Key.{Key};
ghost use Rattle.mg_model.specs.declared.mutations.Mutation.{Mutation};
ghost use Rattle.mg_model.specs.Mutations.{Mutations, feed, feed_of, item_at, item_of, live, newest};
ghost use Rattle.mg_core.specs.Layouts.{Layout, Stands, entry_of};
ghost use Rattle.mg_core.specs.Lists.{Has, RisesBy};
ghost use Rattle.mg_core.specs.Memtables.{all_laid_over, item_of_key, laid_over, looked_up, memtables_of};
ghost use Rattle.mg_core.specs.Reads.{first_of_two, found, led_records};
ghost use Rattle.mg_core.specs.Results.{fresh};

/// What a memtable has rests on the list up to its end alone, so it stays where the list grows, and where it goes back to a place that
/// is not below. At first a memtable is empty, and a write puts the new mutation in the place of its key's older one.
pub const fn memtables_take_writes()
    ensures front { (m n : Mutations) (lo hi : ℕ) → take hi m ≡ take hi n → fresh m lo hi ≡ fresh n lo hi }
    ensures empty { (m : Mutations) (n : ℕ) → fresh m n n ≡ [] }
    ensures write { (m : Mutations) (lo : ℕ) (x : Mutation) → lo ≤ length m
        → fresh (m ++ Some x ∷ []) lo (length m + 1) ≡ laid_over (fresh m lo (length m)) (item_of (length m + 1) x ∷ []) }
{}

/// A key's newest mutation is the one that the memtable has, and where this has none, the newest one of the places below. The lowest
/// memtable lies over a layout, which gives the entry. Several memtables are looked through from the newest.
pub const fn looks_by_memtables_are_those_of_the_list()
    ensures item { (m : Mutations) (lo hi : ℕ) (key : Key) → lo ≤ hi
        → item_at (take hi m) (newest (take hi m) key) ≡ first_of_two (item_of_key (fresh m lo hi) key) (item_at (take lo m) (newest (take lo m) key)) }
    ensures entry { (l : Layout) (m : Mutations) (lo : ℕ) (key : Key) → Stands l (take lo m)
        → option_map entry_of (item_at m (newest m key)) ≡ first_of_two (option_map entry_of (item_of_key (fresh m lo (length m)) key)) (found l.runs key) }
    ensures several { (m : Mutations) (lo : ℕ) (ends : List ℕ) (key : Key) → lo ≤ length m → RisesBy (λ hi. hi) (lo ∷ ends) → ((hi : ℕ) → Has ends hi → hi ≤ length m)
        → item_at m (newest m key) ≡ looked_up key (item_at (take lo m) (newest (take lo m) key)) (memtables_of m lo ends) }
{}

/// The newest mutations of a list are those of a memtable, and those of the places below whose keys the memtable has not. So also
/// where the places below are those of a layout, or of another memtable, and of several memtables. A feed of them is the list's.
pub const fn feeds_by_memtables_are_those_of_the_list()
    ensures live { (m : Mutations) (lo hi : ℕ) → lo ≤ hi → live (take hi m) ≡ laid_over (live (take lo m)) (fresh m lo hi) }
    ensures joined { (m : Mutations) (lo mid hi : ℕ) → lo ≤ mid → mid ≤ hi → fresh m lo hi ≡ laid_over (fresh m lo mid) (fresh m mid hi) }
    ensures records { (l : Layout) (m : Mutations) (lo : ℕ) → Stands l (take lo m) → live m ≡ laid_over (led_records l) (fresh m lo (length m)) }
    ensures feed { (l : Layout) (m : Mutations) (lo after limit : ℕ) → Stands l (take lo m)
        → feed m after limit ≡ feed_of (laid_over (led_records l) (fresh m lo (length m))) after limit }
    ensures several { (m : Mutations) (lo : ℕ) (ends : List ℕ) → lo ≤ length m → RisesBy (λ hi. hi) (lo ∷ ends) → ((hi : ℕ) → Has ends hi → hi ≤ length m)
        → live m ≡ all_laid_over (live (take lo m)) (memtables_of m lo ends) }
{}
