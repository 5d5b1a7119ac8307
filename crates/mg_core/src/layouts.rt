//! Laws of layouts, each the contract of a function that does nothing.

ghost use Rattle.std.specs.Prelude.{◌≡◌, ◌≢◌, ◌↔◌, Some, false, true, ◌+◌, ◌<◌, ◌≤◌, ◌++◌, ℕ, List, [], length, map, take};
ghost use Rattle.std.specs.List.{AllByRecursion, sum_by};
ghost use Rattle.std.specs.Option.{option_map};
ghost use Rattle.mg_types.specs.declared.items.Dead.{Dead};
ghost use Rattle.mg_types.specs.declared.items.Entry.{Entry};
ghost use Rattle.mg_types.specs.declared.items.Item.{Item};
ghost use Rattle.mg_types.specs.declared.keys.Key.{Key};
ghost use Rattle.mg_types.specs.Items.{size_of};
ghost use Rattle.mg_model.specs.Mutations.{Mutations, feed, feed_of, item_at, items_of, live, newest, read};
ghost use Rattle.mg_core.specs.Layouts.{IsRun, Layout, Run, Spans, Stands, Tight, empty_layout, entries_of, entry_of, records_of};
ghost use Rattle.mg_core.specs.Lists.{Has, RisesBy, SameMembers, Within, occurs, times};
ghost use Rattle.mg_core.specs.Opening.{entered_records, opened};
ghost use Rattle.mg_core.specs.Reads.{found, led_records, read_by, record_at};
ghost use Rattle.mg_core.specs.Results.{Divides, IsClean, IsFlush, IsFlushOf, IsFresh, IsMerge, MayBeChosen, MayBeFlushed, MayBeMerged};
ghost use Rattle.mg_core.specs.Results.{fresh, is_kept, with_clean, with_flush, with_merge};

/// The layout that has nothing stands for the empty list.
pub const fn empty_layout_stands()
    ensures { Stands empty_layout [] }
{}

/// What a flush writes has exactly the mutations that are the newest of their key within the interval. It is empty only where the
/// interval has no mutation.
pub const fn flush_has_the_newest_of_its_interval()
    ensures members { (m : Mutations) (above upto : ℕ) (i : Item) → Has (fresh m above upto) i ↔ IsFresh m above upto i }
    ensures some { (m : Mutations) (above upto : ℕ) (i : Item) → Has (items_of m) i → above < i.seq → i.seq ≤ upto → fresh m above upto ≢ [] }
{}

/// A flush, a merge and a cleaning each make one result.
pub const fn results_are_pinned()
    ensures flush { (items : List Item) (above upto : ℕ) (run other : Run) (segment records : List Item) → IsFlushOf items above upto run segment → IsFlushOf items above upto other records
        → (run ≡ other) × (segment ≡ records) }
    ensures merge { (inputs : List Run) (run other : Run) (dead deletes : List Dead) → IsMerge inputs run dead → IsMerge inputs other deletes → (run ≡ other) × (dead ≡ deletes) }
    ensures clean { (inputs : List Item) (chosen : List Dead) (segment records : List Item) (rest deletes : List Dead) → IsClean inputs chosen segment rest
        → IsClean inputs chosen records deletes → (segment ≡ records) × (rest ≡ deletes) }
{}

/// Where a layout stands for a list, records are as many as entries and delete entries together. Of layouts that stand for lists,
/// two of runs, segments and delete entries tell the numbers of the third: a record that is left out with no delete entry gone, or
/// a delete entry left out with no record gone, is a layout that stands for no list.
pub const fn nothing_goes_alone()
    ensures lengths { (l : Layout) (m : Mutations) → Stands l m → length (records_of l.segments) ≡ length (entries_of l.runs) + length l.deletes }
    ensures records { (l other : Layout) (m n : Mutations) (number : ℕ) → Stands l m → Stands other n → l.runs ≡ other.runs → l.deletes ≡ other.deletes
        → times (λ r. r.seq) number (records_of l.segments) ≡ times (λ r. r.seq) number (records_of other.segments) }
    ensures deletes { (l other : Layout) (m n : Mutations) (number : ℕ) → Stands l m → Stands other n → l.runs ≡ other.runs → l.segments ≡ other.segments
        → times (λ d. d.seq) number l.deletes ≡ times (λ d. d.seq) number other.deletes }
    ensures entries { (l other : Layout) (m n : Mutations) (number : ℕ) → Stands l m → Stands other n → l.segments ≡ other.segments → l.deletes ≡ other.deletes
        → times (λ e. e.seq) number (entries_of l.runs) ≡ times (λ e. e.seq) number (entries_of other.runs) }
{}

/// Results of these three wrong kinds lead to layouts that stand for no list: a merge that writes no delete list where an entry
/// was replaced, a cleaning that gives up chosen delete entries whose records lie elsewhere, and one that drops a record which no
/// chosen delete entry names.
pub const fn wrong_results_stand_for_no_list()
    ensures merge { (l : Layout) (m other : Mutations) (newer inputs older : List Run) (run : Run) (dead : List Dead) → Stands l m → l.runs ≡ newer ++ (inputs ++ older)
        → IsMerge inputs run dead → dead ≢ [] → Stands (with_merge l newer run older []) other → ⊥ }
    ensures deletes { (l : Layout) (m other : Mutations) (older inputs newer : List (List Item)) (chosen others rest : List Dead) (segment : List Item) → Stands l m
        → l.segments ≡ older ++ (inputs ++ newer) → Divides l.deletes chosen others → IsClean (records_of inputs) chosen segment rest → rest ≢ []
        → Stands (with_clean l older segment newer [] others) other → ⊥ }
    ensures record { (l : Layout) (m other : Mutations) (older inputs newer : List (List Item)) (chosen others rest : List Dead) (segment : List Item) (r : Item) → Stands l m
        → l.segments ≡ older ++ (inputs ++ newer) → Divides l.deletes chosen others → Has (records_of inputs) r → occurs (λ d. d.seq) chosen r.seq ≡ false
        → occurs (λ r. r.seq) segment r.seq ≡ false → Stands (with_clean l older segment newer rest others) other → ⊥ }
{}

/// What a build can test of its inputs alone is enough for a result of a flush, a merge and a cleaning.
pub const fn results_are_there()
    ensures flush { (items : List Item) (above upto : ℕ) → MayBeFlushed items above upto → (run : Run) × (segment : List Item) × IsFlushOf items above upto run segment }
    ensures merge { (inputs : List Run) (hi lo : ℕ) → MayBeMerged inputs hi lo → (run : Run) × (dead : List Dead) × IsMerge inputs run dead }
    ensures clean { (records : List Item) (chosen : List Dead) → MayBeChosen chosen → (segment : List Item) × (rest : List Dead) × IsClean records chosen segment rest }
{}

/// Over a layout that stands for a list, each flush, merge and cleaning has inputs that a build doesn't refuse, and so a result.
pub const fn standing_gives_results()
    ensures flush { (m : Mutations) (above upto : ℕ) → MayBeFlushed (fresh m above upto) above upto }
    ensures merge { (l : Layout) (m : Mutations) (newer inputs older : List Run) → Stands l m → l.runs ≡ newer ++ (inputs ++ older) → inputs ≢ []
        → (hi : ℕ) × (lo : ℕ) × MayBeMerged inputs hi lo }
    ensures clean { (l : Layout) (m : Mutations) (chosen others : List Dead) → Stands l m → Divides l.deletes chosen others → MayBeChosen chosen }
    ensures records { (l : Layout) (m : Mutations) (older inputs newer : List (List Item)) → Stands l m → l.segments ≡ older ++ (inputs ++ newer) → RisesBy (λ r. r.seq) (records_of inputs) }
{}

/// Of neighbouring runs the newest one that has a key has the entry of the key's greatest number, which is the one that a merge
/// keeps.
pub const fn merge_keeps_what_is_found()
    ensures { (inputs : List Run) (hi lo : ℕ) (e : Entry) → AllByRecursion IsRun inputs → Spans hi lo inputs → Has (entries_of inputs) e
        → (is_kept (entries_of inputs) e ≡ true) ↔ (found inputs e.key ≡ Some e) }
{}

/// Where a layout stands for the first places of a list, the layout with what a flush of the next ones made stands for these too.
pub const fn flush_keeps_standing()
    ensures { (l : Layout) (m : Mutations) (lo hi : ℕ) (run : Run) (segment : List Item) → Stands l (take lo m) → lo < hi → hi ≤ length m
        → IsFlush m lo hi run segment → Stands (with_flush l run segment) (take hi m) }
{}

/// Where a layout stands for a list, so does the layout with what a merge of neighbouring runs made in their place. Newer runs may
/// have come while the merge was made.
pub const fn merge_keeps_standing()
    ensures { (l : Layout) (m : Mutations) (newer inputs older : List Run) (run : Run) (dead : List Dead) → Stands l m → l.runs ≡ newer ++ (inputs ++ older)
        → IsMerge inputs run dead → Stands (with_merge l newer run older dead) m }
{}

/// Runs that are neighbours and are all in a layout that stands for a list are neighbours there. So what a merge made has its place
/// exactly where each of its inputs is still there.
pub const fn inputs_of_a_merge_stay_neighbours()
    ensures { (l : Layout) (m : Mutations) (inputs : List Run) (hi lo : ℕ) → Stands l m → inputs ≢ [] → Spans hi lo inputs → Within inputs l.runs
        → (newer : List Run) × (older : List Run) × (l.runs ≡ newer ++ (inputs ++ older)) }
{}

/// Where a layout stands for a list, so does the layout with what a cleaning of neighbouring segments and some delete entries made in
/// their place. Nothing is said of the index, which a cleaning doesn't read.
pub const fn clean_keeps_standing()
    ensures { (l : Layout) (m : Mutations) (older inputs newer : List (List Item)) (chosen others rest : List Dead) (segment : List Item) → Stands l m
        → l.segments ≡ older ++ (inputs ++ newer) → Divides l.deletes chosen others → IsClean (records_of inputs) chosen segment rest
        → Stands (with_clean l older segment newer rest others) m }
{}

/// The entry of a key in the newest run that has one is that of the key's newest mutation. The record with an entry's number is the
/// list's mutation there, and the entry is the record's. So what the entry of a key leads to is what the list gives of the key.
pub const fn reads_by_runs_are_those_of_the_list()
    ensures entry { (l : Layout) (m : Mutations) (key : Key) → Stands l m → found l.runs key ≡ option_map entry_of (item_at m (newest m key)) }
    ensures record { (l : Layout) (m : Mutations) (e : Entry) → Stands l m → Has (entries_of l.runs) e
        → (record_at l e.seq ≡ item_at m e.seq) × (option_map entry_of (record_at l e.seq) ≡ Some e) }
    ensures document { (l : Layout) (m : Mutations) (key : Key) → Stands l m → read_by l key ≡ read m key }
{}

/// The records to which the index leads are the newest mutations, and a feed of these records is the feed of the list.
pub const fn feeds_by_records_are_those_of_the_list()
    ensures live { (l : Layout) (m : Mutations) → Stands l m → led_records l ≡ live m }
    ensures feed { (l : Layout) (m : Mutations) (after limit : ℕ) → Stands l m → feed_of (led_records l) after limit ≡ feed m after limit }
{}

/// A tight layout has the newest mutations for records, and their entries, and no others. So its entries are as many as these, and
/// have their bytes together.
pub const fn tight_layout_has_only_the_newest()
    ensures records { (l : Layout) (m : Mutations) → Tight l m → records_of l.segments ≡ live m }
    ensures entries { (l : Layout) (m : Mutations) → Tight l m → SameMembers (entries_of l.runs) (map entry_of (live m)) }
    ensures count { (l : Layout) (m : Mutations) → Tight l m → length (entries_of l.runs) ≡ length (live m) }
    ensures sizes { (l : Layout) (m : Mutations) → Tight l m → sum_by (λ e. e.size) (entries_of l.runs) ≡ sum_by size_of (live m) }
{}

/// One merge of all runs, and then one cleaning of all segments with all delete entries, end in a tight layout. The cleaning leaves
/// no delete entry. Where one run stands or none, the cleaning alone ends so.
pub const fn compacting_makes_tight()
    ensures merged { (l : Layout) (m : Mutations) (run : Run) (dead rest : List Dead) (segment : List Item) → Stands l m → IsMerge l.runs run dead
        → IsClean (records_of l.segments) (dead ++ l.deletes) segment rest → (rest ≡ []) × Tight (with_clean (with_merge l [] run [] dead) [] segment [] rest []) m }
    ensures cleaned { (l : Layout) (m : Mutations) (segment : List Item) (rest : List Dead) → Stands l m → length l.runs ≤ 1 → IsClean (records_of l.segments) l.deletes segment rest
        → (rest ≡ []) × Tight (with_clean l [] segment [] rest []) m }
{}

/// The records that have an entry's number make a list with the same newest mutations, and the layout stands for that list too. So
/// nothing that an answer rests on is lost where a partition is opened from its files.
pub const fn opened_list_has_the_same_newest()
    ensures live { (l : Layout) (m : Mutations) → Stands l m → live (opened (entered_records l) (length m)) ≡ live m }
    ensures stands { (l : Layout) (m : Mutations) → Stands l m → Stands l (opened (entered_records l) (length m)) }
{}
