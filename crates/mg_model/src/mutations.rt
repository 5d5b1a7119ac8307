//! Mutations, of which a partition's list is made.

use mg_types::{Doc, Key};

/// A set of a key to a document, or a delete of a key, which has no document.
#[derive(Debug, Drop)]
pub struct Mutation {
    pub key: Key,
    pub doc: Option<Doc>,
}
