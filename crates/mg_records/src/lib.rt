//! Sealed files of numbered records: blocks of records in rising order of their numbers, an index of the blocks, a footer.
#![tactic(auto)]

mod block;
mod contents;
mod dead;
mod file;
mod item;
pub mod laws;
mod lookup;
mod pages;
mod reading;
mod record;
mod writer;

pub use file::RecordFile;
pub use record::Record;
pub use writer::RecordWriter;

#[cfg(test)]
mod tests;
