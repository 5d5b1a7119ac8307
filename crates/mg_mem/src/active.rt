//! The memtable that takes writes.

ghost use Rattle.std.specs.Prelude.{◌≡◌, ◌+◌, ◌<◌, ◌≤◌, ◌^◌, ◌↔◌, [], ◌∷◌, ◌++◌, if◌then◌else◌, length, Some, IfErr, IfOk, IsOkUnless, IsTrue, MatchResult, OnErr, OnOk, sum_by, vec_capacity};
ghost use Rattle.std.specs.BTreeMap.{btree_map_len, insert_entry, values};
ghost use Rattle.std.specs.Cmp.Lexicographic.{slice_cmp};
ghost use Rattle.std.specs.Option.{option_copied};
ghost use Rattle.std.specs.Ordering.{nat_cmp};
ghost use Rattle.std.specs.Str.{bytes_eq};
ghost use Rattle.mg_types.specs.Items.{size_of};
ghost use Rattle.mg_types.specs.declared.keys.Key.{Key};
ghost use Rattle.mg_model.specs.declared.mutations.Mutation.{Mutation};
ghost use Rattle.mg_model.specs.Mutations.{Mutations, item_of};
ghost use Rattle.mg_core.specs.Memtables.{item_of_key};
ghost use Rattle.mg_mem.specs.Memtable.{HoldsNewest, IsMemtable, frozen_at};

use crate::frozen::Frozen;
use crate::items;
use mg_types::{Fault, Item, Key};
use std::alloc::Global;
use std::collections::BTreeMap;
use std::marker::Model;

/// The memtable that takes writes: the newest mutation of each key in an interval that grows by one with each write.
///
/// Beside each item it keeps a copy of the key.
#[derive(Drop)]
pub struct Active {
    lo: u64,
    hi: u64,
    bytes: u64,
    items: BTreeMap<Key, Item>,
}

impl Model for Active {
    ghost use Rattle.std.specs.BTreeMap.{values};
    ghost use Rattle.mg_mem.specs.Memtable.{IsKept, Memtable};

    ghost Value = { Memtable };

    ghost view = { λ a. record { lo = a.lo; hi = a.hi; items = values a.items } };

    ghost invariant = { λ a. IsKept (record { lo = a.lo; hi = a.hi; items = values a.items }) a.bytes a.items };
}

impl Active {
    /// The memtable of the empty interval above `lo`. Takes no memory.
    pub fn new(alloc: Global, lo: u64) -> Active
        ensures { result ≡ record { lo = lo; hi = lo; items = [] } }
    {
        Active {
            lo,
            hi: lo,
            bytes: 0,
            items: BTreeMap::new(alloc),
        }
    }

    /// The number below the first one of the interval.
    pub fn lo(&self) -> u64
        ensures { result ≡ self.now.lo }
    {
        self.lo
    }

    /// The last number of the interval, or `lo` where it is empty.
    pub fn hi(&self) -> u64
        ensures { result ≡ self.now.hi }
    {
        self.hi
    }

    /// How many keys have an item.
    pub fn count(&self) -> usize
        ensures { result ≡ length self.now.items }
    {
        self.items.len()
    }

    pub fn is_empty(&self) -> bool
        ensures { IsTrue result ↔ (self.now.items ≡ []) }
    {
        self.items.is_empty()
    }

    /// The bytes of all keys and documents that it has. Takes no time: the sum is kept.
    pub fn bytes(&self) -> u64
        ensures bytes { result ≡ sum_by size_of self.now.items }
        ensures form { IsMemtable self.now }
    {
        self.bytes
    }

    /// The item of a key, in time that grows with the logarithm of their count.
    pub fn get(&self, key: &Key) -> Option<&Item>
        ensures { option_copied result ≡ item_of_key self.now.items key.now }
    {
        self.items.get(key)
    }

    /// Takes the next write: the item of the number behind the interval, which replaces its key's older one.
    pub fn insert(&mut self, alloc: Global, item: Item) -> Result<(), Fault>
        requires next { item.seq ≡ self.old.hi + 1 }
        requires small { item.seq < 2 ^ 40 }
        ensures span { OnOk result ((self.new.lo ≡ self.old.lo) × (self.new.hi ≡ item.seq)) }
        ensures items { OnOk result ((key : Key) → item_of_key self.new.items key ≡ (if bytes_eq item.key key then Some item else item_of_key self.old.items key)) }
        ensures newest { (m : Mutations) (x : Mutation) → HoldsNewest m self.old → self.old.hi ≡ length m → item ≡ item_of (length m + 1) x
            → OnOk result (HoldsNewest (m ++ Some x ∷ []) self.new) }
        ensures err { OnErr result (self.new ≡ self.old) }
        ensures memory { IfErr result (λ fault. fault ≡ Fault.NoMemory) }
    {
        let number = item.seq;
        let size = items::size_of(&item);
        let key = item.key.copy(alloc)?;
        let replaced = self.items.insert(key, item)?;
        self.bytes = self.bytes - items::size_if_some(&replaced) + size;
        self.hi = number;
        Ok(())
    }

    /// The same memtable once more, with all its documents.
    pub fn copy(&self, alloc: Global) -> Result<Active, Fault>
        ensures ok { IfOk result (λ copy. copy ≡ self.now) }
        ensures err { IsOkUnless result Fault.NoMemory }
    {
        Ok(Active {
            lo: self.lo,
            hi: self.hi,
            bytes: self.bytes,
            items: copy_all(&self.items, alloc)?,
        })
    }

    /// The memtable as one that takes no more writes, beside how many changes its partition has made. No document is copied. For want
    /// of memory it comes back as it was.
    pub fn freeze(self, alloc: Global, change: u64) -> Result<Frozen, Active>
        ensures { MatchResult result (λ frozen. frozen ≡ frozen_at self change) (λ active. active ≡ self) }
    {
        let Ok(room) = Vec::with_capacity(alloc, self.items.len()) else {
            return Err(self);
        };
        let Active {
            lo,
            hi,
            bytes,
            items,
        } = self;
        Ok(Frozen::new(lo, hi, change, bytes, moved(items, room)))
    }
}

/// The same map once more.
fn copy_all(map: &BTreeMap<Key, Item>, alloc: Global) -> Result<BTreeMap<Key, Item>, Fault>
    ensures ok { IfOk result (λ copy. copy.entries ≡ map.now.entries) }
    ensures err { IsOkUnless result Fault.NoMemory }
{
    let mut copy = BTreeMap::new(alloc);
    for (key, item) in map {
        put_copy(&mut copy, key, item, alloc)?;
    }
    Ok(copy)
}

/// Puts a copy of an item under a copy of a key.
fn put_copy(
    copy: &mut BTreeMap<Key, Item>,
    key: &Key,
    item: &Item,
    alloc: Global,
) -> Result<(), Fault>
    ensures put { OnOk result (copy.new.entries ≡ insert_entry (slice_cmp nat_cmp) copy.old.entries key.now item.now) }
    ensures err { IsOkUnless result Fault.NoMemory }
{
    copy.insert(key.copy(alloc)?, items::copy(item, alloc)?)?;
    Ok(())
}

/// The items of a map, moved in order into room for them all.
fn moved(map: BTreeMap<Key, Item>, mut room: Vec<Item>) -> Vec<Item>
    requires empty { room.items ≡ [] }
    requires room { btree_map_len map ≤ vec_capacity room }
    ensures { result.items ≡ values map }
{
    for item in map.into_values() {
        room.push(item).unwrap();
    }
    room
}
