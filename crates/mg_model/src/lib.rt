//! Calls, replies and changes, and the plain machine that says what each call means.
//!
//! The definitions stand in `specs/`: `Mutations` has the mutation list with its newest mutations, reads
//! and feeds, `State` has a partition's state and the one step that each call is, `History` has
//! histories and their changes, `Placed` has the calls of all partitions in one list, and `Fits` has which
//! answers fit a call at a place of a history.
#![tactic(auto)]

mod calls;
mod laws;
mod machine;
mod marks;
mod mutations;
mod replies;
mod scan;

pub use calls::{Call, Change};
pub use laws::{
    answers_go_on_fitting, calls_make_the_allowed_changes, changes_lead_where_calls_lead,
    lists_of_changes_are_those_of_calls, low_is_the_least_length, one_cut_leaves_fronts,
    one_order_serves_all_partitions, own_places_have_own_calls, room_keeps_the_limits,
    states_stay_states,
};
pub use machine::Plain;
pub use mg_types::{Doc, Fault, FileId, Item, Key, Kind, Why};
pub use mutations::Mutation;
pub use replies::{Answer, Reply};

#[cfg(test)]
mod tests;
