//! Layouts as mathematics: what it means that runs, segments and delete lists stand for a mutation list, with memtables over them and
//! with the layouts of marks, and the laws that changes, flushes, merges and cleanings keep it so.
#![tactic(auto)]

mod by_hand;
mod keeping;
mod layouts;
mod memtables;
mod need;

pub use by_hand::three_writes_by_hand;
pub use keeping::{
    changes_keep_layouts, jobs_keep_layouts, kept_layouts_come_and_go, memtables_stay_neighbours,
};
pub use layouts::{
    clean_keeps_standing, compacting_makes_tight, empty_layout_stands,
    feeds_by_records_are_those_of_the_list, flush_has_the_newest_of_its_interval,
    flush_keeps_standing, inputs_of_a_merge_stay_neighbours, merge_keeps_standing,
    merge_keeps_what_is_found, nothing_goes_alone, opened_list_has_the_same_newest,
    reads_by_runs_are_those_of_the_list, results_are_pinned, results_are_there,
    standing_gives_results, tight_layout_has_only_the_newest, wrong_results_stand_for_no_list,
};
pub use memtables::{
    feeds_by_memtables_are_those_of_the_list, looks_by_memtables_are_those_of_the_list,
    memtables_take_writes,
};
pub use need::{
    equal_need_gives_equal_replies, equal_need_stays_under_changes, opened_state_has_equal_need,
};
