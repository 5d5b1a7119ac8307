//! The record of a partition's manifest, without any device: the body of its frame, written and read.
//!
//! All numbers are big-endian. A body is the format u8, which is 1; the epoch, the number of changes that are applied, the
//! receipt, the last sequence number that is flushed and the number of the next file, u64 each; a layout; the number of marks
//! u8, and per mark its number u64 and a layout. A layout is the number of runs u16, and per run the two numbers of its
//! interval, u64 each, and its files after their number u16; then its segments after their number u32, and its delete lists
//! likewise. A file is its number u64 and its length u64. A record's version is the number of its frame.
#![tactic(auto)]

mod flaws;
mod items;
pub mod laws;
mod layout;
mod record;
mod spelled;
#[cfg(test)]
mod tests;

pub use layout::{LayoutNames, NamedFile, RunNames};
pub use record::{ManifestRec, MarkNames, manifest_len, put_manifest, read_manifest};
