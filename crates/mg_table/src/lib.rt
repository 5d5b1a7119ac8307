//! Tables: sealed files of entries in rising order of their keys, from a key to the number and size of its newest mutation.
//!
//! A table is block frames, an index frame, a filter frame and a footer frame. It is a function of its list of entries and
//! its interval of sequence numbers.
#![tactic(auto)]

mod checks;
mod entry;
mod filters;
pub mod laws;
mod load;
mod pages;
mod reading;
mod table;
#[cfg(test)]
mod tests;
mod writer;

pub use table::Table;
pub use writer::TableWriter;
