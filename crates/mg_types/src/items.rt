//! What the document log, the index and delete lists have of a mutation.

ghost use Rattle.std.specs.Prelude.{◌↔◌, IsTrue};
ghost use Rattle.mg_types.specs.Items.{IsDead, IsEntry};

use crate::documents::Doc;
use crate::keys::Key;
use crate::limits::{is_seq, is_size};

/// A mutation with its sequence number, which is its place in the partition's list, from 1.
#[derive(Debug, Drop)]
pub struct Item {
    pub seq: u64,
    pub key: Key,
    /// None for a delete.
    pub doc: Option<Doc>,
}

/// What the index has of a key: the sequence number and the size of its newest mutation, and whether that is a delete.
#[derive(Debug, Drop)]
pub struct Entry {
    pub key: Key,
    pub seq: u64,
    /// The bytes of key and document together.
    pub size: u32,
    pub gone: bool,
}

impl Entry {
    /// Whether a file may have the entry: whether its sequence number and its size are within their limits.
    pub fn fits(&self) -> bool
        ensures { IsTrue result ↔ IsEntry self.now }
    {
        is_seq(self.seq) && is_size(self.size)
    }
}

/// What a delete list has of a mutation that a newer one of its key replaced.
#[derive(Clone, Copy, Debug, PartialEq, Eq)]
pub struct Dead {
    pub seq: u64,
    /// The bytes of its key and document together.
    pub size: u32,
}

impl Dead {
    /// Whether a file may have the entry: whether its sequence number and its size are within their limits.
    pub fn fits(&self) -> bool
        ensures { IsTrue result ↔ IsDead self.now }
    {
        is_seq(self.seq) && is_size(self.size)
    }
}
