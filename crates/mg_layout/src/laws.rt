//! Laws of layouts over files, each the contract of a function that does nothing.

ghost use Rattle.std.specs.Prelude.{◌≡◌, ◌<◌, ◌≤◌, ◌++◌, ℕ, List, Option, length, take};
ghost use Rattle.mg_core.specs.Layouts.{Layout, Stands};
ghost use Rattle.mg_core.specs.Lists.{SameMembers};
ghost use Rattle.mg_core.specs.Results.{fresh};
ghost use Rattle.mg_layout.specs.Files.{LayoutFiles, RunFile};
ghost use Rattle.mg_layout.specs.Holding.{HoldsLayout};
ghost use Rattle.mg_layout.specs.Made.{IsCleanMade, IsFlushMade, IsMergeMade, with_cleaned, with_flushed, with_merged};
ghost use Rattle.mg_model.specs.Mutations.{Mutations};
ghost use Rattle.mg_records.specs.Writing.{Filed};
ghost use Rattle.mg_types.specs.declared.items.Item.{Item};

/// Where files hold a layout that stands for the first places of a list, they and what a flush of the newest mutations of the next
/// places made hold one that stands for these too.
pub const fn flush_made_keeps_standing<S>()
    ensures { (told : S → Option (List ℕ)) (files : LayoutFiles S) (l : Layout) (m : Mutations) (items : List Item) (above upto : ℕ) (file : RunFile S) (segment : Filed S)
        → HoldsLayout told files l → Stands l (take above m) → above < upto → upto ≤ length m → SameMembers items (fresh m above upto)
        → IsFlushMade told items above upto file segment → (new : Layout) × HoldsLayout told (with_flushed files file segment) new × Stands new (take upto m) }
{}

/// Where files hold a layout that stands for a list, so do those with what a merge of neighbouring runs made in their place.
pub const fn merge_made_keeps_standing<S>()
    ensures { (told : S → Option (List ℕ)) (files : LayoutFiles S) (l : Layout) (m : Mutations) (newer inputs older : List (RunFile S)) (file : RunFile S) (list : Option (Filed S))
        → HoldsLayout told files l → Stands l m → files.runs ≡ newer ++ (inputs ++ older) → IsMergeMade told inputs file list
        → (new : Layout) × HoldsLayout told (with_merged files newer file older list) new × Stands new m }
{}

/// Where files hold a layout that stands for a list, so do those with what a cleaning of neighbouring segments and neighbouring
/// delete lists made in their place.
pub const fn clean_made_keeps_standing<S>()
    ensures { (told : S → Option (List ℕ)) (files : LayoutFiles S) (l : Layout) (m : Mutations) (older inputs newer before lists after : List (Filed S)) (segment rest : Option (Filed S))
        → HoldsLayout told files l → Stands l m → files.segments ≡ older ++ (inputs ++ newer) → files.deletes ≡ before ++ (lists ++ after)
        → IsCleanMade told inputs lists segment rest → (new : Layout) × HoldsLayout told (with_cleaned files older segment newer rest before after) new × Stands new m }
{}
