//! Segments: the mutations of a partition in the order of their numbers, in files that never change.
//!
//! A record is its number in 8 bytes, a byte for its kind (1 a set, 2 a delete), the key after its count of one byte, and
//! for a set the document after its count of 4 bytes. Numbers and counts are big-endian. The records stand in blocks, behind
//! which come an index of the blocks and a footer.
#![tactic(auto)]

use mg_records::{RecordFile, RecordWriter};
use mg_types::Item;

/// A segment that is whole.
pub type Segment<S> = RecordFile<S, Item>;

/// A segment in writing.
pub type SegmentWriter<D> = RecordWriter<D, Item>;

#[cfg(test)]
mod tests;
