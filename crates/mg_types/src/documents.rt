//! Documents.

ghost use Rattle.std.specs.Prelude.{◌≡◌, IfOk, IsOkUnless};
ghost use Rattle.std.specs.Option.{SomeIff};
ghost use Rattle.mg_types.specs.Bytes.{IsDoc};

use crate::faults::Fault;
use mg_items::Items;
use std::alloc::Global;
use std::marker::Model;

/// A document: at most 1,048,576 bytes, stored as given.
#[derive(Debug, Drop)]
pub struct Doc {
    bytes: Items<u8>,
}

impl Model for Doc {
    ghost use Rattle.std.specs.Prelude.{List, ℕ};
    ghost use Rattle.std.specs.Coded.{coded_list, coded_ℕ};
    ghost use Rattle.mg_types.specs.Bytes.{IsDoc};

    ghost Value = { List ℕ };

    ghost coded = { coded_list coded_ℕ };

    ghost view = { λ d. d.bytes };

    ghost invariant = { λ d. IsDoc d.bytes };
}

impl Doc {
    /// The most bytes of a document.
    pub const MAX_LEN: usize = 1_048_576;

    /// A copy of the bytes as a document, or `None` where they are too many.
    pub fn new(alloc: Global, bytes: &[u8]) -> Result<Option<Doc>, Fault>
        ensures ok { IfOk result (λ doc. SomeIff doc (IsDoc bytes.now) bytes.now) }
        ensures err { IsOkUnless result Fault.NoMemory }
    {
        if bytes.len() > Doc::MAX_LEN {
            return Ok(None);
        }
        let bytes = Items::from_slice(alloc, bytes)?;
        Ok(Some(Doc { bytes }))
    }

    /// The bytes as a document, or `None` where they are too many. Takes no memory.
    pub fn from_vec(bytes: Vec<u8>) -> Option<Doc>
        ensures { SomeIff result (IsDoc bytes.items) bytes.items }
    {
        if bytes.len() > Doc::MAX_LEN {
            return None;
        }
        Some(Doc {
            bytes: Items::from_vec(bytes),
        })
    }

    pub fn bytes(&self) -> &[u8]
        ensures bytes { result.now ≡ self.now }
        ensures form { IsDoc self.now }
    {
        self.bytes.as_slice()
    }

    /// The same document once more.
    pub fn copy(&self, alloc: Global) -> Result<Doc, Fault>
        ensures ok { IfOk result (λ doc. doc ≡ self.now) }
        ensures err { IsOkUnless result Fault.NoMemory }
    {
        let bytes = Items::from_slice(alloc, self.bytes.as_slice())?;
        Ok(Doc { bytes })
    }
}
