//! Layouts over files: runs, segments and delete lists that several layouts may share, what they give of a key and of a number,
//! and the work that makes new files of them.
#![tactic(auto)]

mod jobs;
pub mod laws;
mod layout;
mod made;
mod reading;
mod run;

pub use jobs::{CleanJob, FlushJob, MergeJob};
pub use layout::Layout;
pub use made::{CleanMade, FlushMade, MergeMade};
pub use run::Run;

#[cfg(test)]
mod tests;
