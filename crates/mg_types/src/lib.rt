//! The types that all crates which store something speak of: keys, documents, mutations with their numbers, entries of the
//! index and of delete lists, names of files, and faults; and the limits of their numbers.
#![tactic(auto)]

mod documents;
mod faults;
mod items;
mod keys;
mod limits;
mod names;

pub use documents::Doc;
pub use faults::{Fault, Why};
pub use items::{Dead, Entry, Item};
pub use keys::Key;
pub use limits::{MAX_SIZE, NUMBER_LIMIT, SEQ_LIMIT, is_number, is_seq, is_size};
pub use names::{FileId, Kind, Name};

#[cfg(test)]
mod tests;
