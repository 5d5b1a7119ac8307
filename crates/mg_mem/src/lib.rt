//! Memtables: the newest mutation of each key among those of an interval that are in no file yet.
#![tactic(auto)]

mod active;
mod frozen;
mod items;

pub use active::Active;
pub use frozen::{Frozen, same};

#[cfg(test)]
mod tests;
