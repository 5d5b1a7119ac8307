//! Delete lists: the numbers of mutations that newer ones have replaced, with the sizes of those mutations.
//!
//! A list rises by its numbers. In a file an entry is its number in 8 bytes and its size in 4, both big-endian. A scan after 0 is
//! the whole list.
#![tactic(auto)]

mod lists;
mod lookup;

pub use lists::{minus, union};
pub use lookup::has;
use mg_records::{RecordFile, RecordWriter};
use mg_types::Dead;

/// A delete list that is whole.
pub type DelList<S> = RecordFile<S, Dead>;

/// A delete list in writing.
pub type DelWriter<D> = RecordWriter<D, Dead>;

#[cfg(test)]
mod tests;
