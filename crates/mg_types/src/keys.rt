//! Keys.

ghost use Rattle.std.specs.Prelude.{◌≡◌, IfOk, IsOkUnless, Some, nat_eq, refl};
ghost use Rattle.std.specs.Cmp.{partial_equiv_from_equiv};
ghost use Rattle.std.specs.Cmp.Lexicographic.{pointwise, slice_cmp, nat_list_cmp_total, nat_list_eq_equiv, texts_po, texts_ties};
ghost use Rattle.std.specs.Option.{SomeIff};
ghost use Rattle.std.specs.Ordering.{nat_cmp};
ghost use Rattle.mg_types.specs.Bytes.{IsKey};

use crate::faults::Fault;
use mg_items::Items;
use std::alloc::Global;
use std::cmp::Ordering;
use std::marker::Model;

/// A key: 1 to 250 bytes. Keys are compared byte by byte.
#[derive(Debug, Drop)]
pub struct Key {
    bytes: Items<u8>,
}

impl Model for Key {
    ghost use Rattle.std.specs.Prelude.{List, ℕ};
    ghost use Rattle.std.specs.Coded.{coded_list, coded_ℕ};
    ghost use Rattle.mg_types.specs.Bytes.{IsKey};

    ghost Value = { List ℕ };

    ghost coded = { coded_list coded_ℕ };

    ghost view = { λ k. k.bytes };

    ghost invariant = { λ k. IsKey k.bytes };
}

impl Key {
    /// The most bytes of a key.
    pub const MAX_LEN: usize = 250;

    /// A copy of the bytes as a key, or `None` where they are too few or too many.
    pub fn new(alloc: Global, bytes: &[u8]) -> Result<Option<Key>, Fault>
        ensures ok { IfOk result (λ key. SomeIff key (IsKey bytes.now) bytes.now) }
        ensures err { IsOkUnless result Fault.NoMemory }
    {
        if bytes.is_empty() || bytes.len() > Key::MAX_LEN {
            return Ok(None);
        }
        let bytes = Items::from_slice(alloc, bytes)?;
        Ok(Some(Key { bytes }))
    }

    /// The bytes as a key, or `None` where they are too few or too many. Takes no memory.
    pub fn from_vec(bytes: Vec<u8>) -> Option<Key>
        ensures { SomeIff result (IsKey bytes.items) bytes.items }
    {
        if bytes.is_empty() || bytes.len() > Key::MAX_LEN {
            return None;
        }
        Some(Key {
            bytes: Items::from_vec(bytes),
        })
    }

    pub fn bytes(&self) -> &[u8]
        ensures bytes { result.now ≡ self.now }
        ensures form { IsKey self.now }
    {
        self.bytes.as_slice()
    }

    /// The same key once more.
    pub fn copy(&self, alloc: Global) -> Result<Key, Fault>
        ensures ok { IfOk result (λ key. key ≡ self.now) }
        ensures err { IsOkUnless result Fault.NoMemory }
    {
        let bytes = Items::from_slice(alloc, self.bytes.as_slice())?;
        Ok(Key { bytes })
    }
}

impl PartialEq for Key {
    ghost eq = { λ a b. pointwise nat_eq a b };

    ghost laws = { partial_equiv_from_equiv nat_list_eq_equiv };

    fn eq(&self, other: &Key) -> bool {
        self.bytes() == other.bytes()
    }
}

impl Eq for Key {
    ghost laws = { nat_list_eq_equiv };
}

impl PartialOrd for Key {
    ghost partial_cmp = { λ a b. Some (slice_cmp nat_cmp a b) };

    ghost laws = { texts_po };

    fn partial_cmp(&self, other: &Key) -> Option<Ordering> {
        Some(self.cmp(other))
    }
}

impl Ord for Key {
    ghost cmp = { λ a b. slice_cmp nat_cmp a b };

    ghost total = { nat_list_cmp_total };

    ghost matches_partial_cmp = { λ a b. refl };

    ghost matches_eq = { λ a b. texts_ties a b };

    fn cmp(&self, other: &Key) -> Ordering {
        self.bytes().cmp(other.bytes())
    }
}
