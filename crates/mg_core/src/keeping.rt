//! Laws of the layouts that a partition keeps, each the contract of a function that does nothing.

ghost use Rattle.std.specs.Prelude.{◌≡◌, ◌<◌, ◌≤◌, ◌++◌, ℕ, List, [], ◌∷◌, map, nat_le};
ghost use Rattle.std.specs.List.{filter};
ghost use Rattle.mg_types.specs.declared.items.Dead.{Dead};
ghost use Rattle.mg_types.specs.declared.items.Item.{Item};
ghost use Rattle.mg_model.specs.declared.mutations.Mutation.{Mutation};
ghost use Rattle.mg_model.specs.State.{State, after_back, after_clear, after_forget, after_mark, after_write, length_of, marks_of, new_state};
ghost use Rattle.mg_core.specs.Keeping.{Holds, Keeps};
ghost use Rattle.mg_core.specs.Layouts.{Layout, Run, empty_layout, records_of};
ghost use Rattle.mg_core.specs.Lists.{Has, Within};
ghost use Rattle.mg_core.specs.Results.{Divides, IsClean, IsFlush, IsMerge, with_clean, with_flush, with_merge};

/// The layouts that a partition keeps stay right under each change. A mark at the end of what is in files needs its layout first, a way
/// back to such a mark makes the mark's layout the present one, and a way back to a place above leaves it. After a clear nothing is
/// left, as at first.
pub const fn changes_keep_layouts()
    ensures at_first { Keeps empty_layout [] 0 new_state }
    ensures write { (l : Layout) (kept : List (ℕ × Layout)) (flushed : ℕ) (s : State) (x : Mutation) → Keeps l kept flushed s → Keeps l kept flushed (after_write s x) }
    ensures mark { (l : Layout) (kept : List (ℕ × Layout)) (flushed : ℕ) (s : State) → Keeps l kept flushed s
        → (length_of s ≤ flushed → Has (map (λ k. k.0) kept) (length_of s)) → Keeps l kept flushed (after_mark s) }
    ensures forget { (l : Layout) (kept : List (ℕ × Layout)) (flushed : ℕ) (s : State) (place : ℕ) → Keeps l kept flushed s → Keeps l kept flushed (after_forget s place) }
    ensures back { (l below : Layout) (kept : List (ℕ × Layout)) (flushed : ℕ) (s : State) (place : ℕ) → Keeps l kept flushed s → Has kept (place, below)
        → Keeps below (filter (λ k. nat_le k.0 place) kept) place (after_back s place) }
    ensures back_above { (l : Layout) (kept : List (ℕ × Layout)) (flushed : ℕ) (s : State) (place : ℕ) → Keeps l kept flushed s → flushed ≤ place → place ≤ length_of s
        → Keeps l kept flushed (after_back s place) }
    ensures clear { (s : State) → Keeps empty_layout [] 0 (after_clear s) }
{}

/// The present layout may join the kept ones, and kept ones may go that no mark needs.
pub const fn kept_layouts_come_and_go()
    ensures joined { (l : Layout) (kept : List (ℕ × Layout)) (flushed : ℕ) (s : State) → Keeps l kept flushed s → Keeps l (kept ++ (flushed, l) ∷ []) flushed s }
    ensures fewer { (l : Layout) (kept fewer : List (ℕ × Layout)) (flushed : ℕ) (s : State) → Keeps l kept flushed s → Within fewer kept
        → ((mark : ℕ) → Has (marks_of s) mark → mark ≤ flushed → Has (map (λ k. k.0) fewer) mark) → Keeps l fewer flushed s }
{}

/// The layouts that a partition keeps stay right where the present one takes what a flush, a merge or a cleaning made. A flush ends at
/// the first mark above what is in files, if its interval has one, and then the layout is kept for the mark.
pub const fn jobs_keep_layouts()
    ensures flush { (l : Layout) (kept : List (ℕ × Layout)) (flushed hi : ℕ) (s : State) (run : Run) (segment : List Item) → Keeps l kept flushed s → flushed < hi → hi ≤ length_of s
        → IsFlush s.mutations flushed hi run segment → ((mark : ℕ) → Has (marks_of s) mark → flushed < mark → mark ≤ hi → ⊥) → Keeps (with_flush l run segment) kept hi s }
    ensures flush_at_mark { (l : Layout) (kept : List (ℕ × Layout)) (flushed hi : ℕ) (s : State) (run : Run) (segment : List Item) → Keeps l kept flushed s → flushed < hi
        → hi ≤ length_of s → IsFlush s.mutations flushed hi run segment → ((mark : ℕ) → Has (marks_of s) mark → flushed < mark → mark ≤ hi → mark ≡ hi)
        → Keeps (with_flush l run segment) (kept ++ (hi, with_flush l run segment) ∷ []) hi s }
    ensures merge { (l : Layout) (kept : List (ℕ × Layout)) (flushed : ℕ) (s : State) (newer inputs older : List Run) (run : Run) (dead : List Dead) → Keeps l kept flushed s
        → l.runs ≡ newer ++ (inputs ++ older) → IsMerge inputs run dead → Keeps (with_merge l newer run older dead) kept flushed s }
    ensures clean { (l : Layout) (kept : List (ℕ × Layout)) (flushed : ℕ) (s : State) (older inputs newer : List (List Item)) (chosen others rest : List Dead) (segment : List Item)
        → Keeps l kept flushed s → l.segments ≡ older ++ (inputs ++ newer) → Divides l.deletes chosen others → IsClean (records_of inputs) chosen segment rest
        → Keeps (with_clean l older segment newer rest others) kept flushed s }
{}

/// Beside its layouts a partition has frozen memtables and one that takes writes. Their intervals stay neighbours under each change and
/// each job: a mark above what is in files needs the memtable frozen first, a way back drops what is above, and a flush is of the
/// oldest one, which is the next interval with no mark inside it.
pub const fn memtables_stay_neighbours()
    ensures at_first { Holds empty_layout [] 0 [] new_state }
    ensures write { (l : Layout) (kept : List (ℕ × Layout)) (flushed : ℕ) (ends : List ℕ) (s : State) (x : Mutation) → Holds l kept flushed ends s → Holds l kept flushed ends (after_write s x) }
    ensures freeze { (l : Layout) (kept : List (ℕ × Layout)) (flushed : ℕ) (ends : List ℕ) (s : State) → Holds l kept flushed ends s
        → ((hi : ℕ) → Has (flushed ∷ ends) hi → hi < length_of s) → Holds l kept flushed (ends ++ length_of s ∷ []) s }
    ensures mark { (l : Layout) (kept : List (ℕ × Layout)) (flushed : ℕ) (ends : List ℕ) (s : State) → Holds l kept flushed ends s
        → (length_of s ≤ flushed → Has (map (λ k. k.0) kept) (length_of s)) → (flushed < length_of s → Has ends (length_of s)) → Holds l kept flushed ends (after_mark s) }
    ensures forget { (l : Layout) (kept : List (ℕ × Layout)) (flushed : ℕ) (ends : List ℕ) (s : State) (place : ℕ) → Holds l kept flushed ends s
        → Holds l kept flushed ends (after_forget s place) }
    ensures back { (l below : Layout) (kept : List (ℕ × Layout)) (flushed : ℕ) (ends : List ℕ) (s : State) (place : ℕ) → Holds l kept flushed ends s → Has kept (place, below)
        → Holds below (filter (λ k. nat_le k.0 place) kept) place [] (after_back s place) }
    ensures back_above { (l : Layout) (kept : List (ℕ × Layout)) (flushed : ℕ) (ends : List ℕ) (s : State) (place : ℕ) → Holds l kept flushed ends s → Has (marks_of s) place → flushed < place
        → Holds l kept flushed (filter (λ hi. nat_le hi place) ends) (after_back s place) }
    ensures clear { (s : State) → Holds empty_layout [] 0 [] (after_clear s) }
    ensures flush { (l : Layout) (kept : List (ℕ × Layout)) (flushed hi : ℕ) (ends : List ℕ) (s : State) (run : Run) (segment : List Item) → Holds l kept flushed (hi ∷ ends) s
        → IsFlush s.mutations flushed hi run segment → (Has (marks_of s) hi → ⊥) → Holds (with_flush l run segment) kept hi ends s }
    ensures flush_at_mark { (l : Layout) (kept : List (ℕ × Layout)) (flushed hi : ℕ) (ends : List ℕ) (s : State) (run : Run) (segment : List Item) → Holds l kept flushed (hi ∷ ends) s
        → IsFlush s.mutations flushed hi run segment → Holds (with_flush l run segment) (kept ++ (hi, with_flush l run segment) ∷ []) hi ends s }
    ensures layouts { (l other : Layout) (kept left : List (ℕ × Layout)) (flushed : ℕ) (ends : List ℕ) (s : State) → Holds l kept flushed ends s → Keeps other left flushed s
        → Holds other left flushed ends s }
{}
