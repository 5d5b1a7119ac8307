//! Memtables that take no more writes.

ghost use Rattle.std.specs.Prelude.{◌≡◌, ◌↔◌, ◌≤◌, ℕ, map, IfOk, IsOkUnless, IsTrue, sum_by};
ghost use Rattle.std.specs.Cmp.Lexicographic.{slice_cmp};
ghost use Rattle.std.specs.List.Sorted.{IsStrictlySortedBy};
ghost use Rattle.std.specs.Option.{option_copied};
ghost use Rattle.std.specs.Ordering.{nat_cmp};
ghost use Rattle.mg_types.specs.Items.{size_of};
ghost use Rattle.mg_core.specs.Lists.{RisesBy, SameMembers, times};
ghost use Rattle.mg_core.specs.Memtables.{item_of_key};
ghost use Rattle.mg_mem.specs.Memtable.{IsMemtable, thawed};

use crate::items;
use mg_types::{Fault, Item, Key};
use std::alloc::{AllocError, Global};
use std::marker::Model;

/// A memtable that takes no more writes, in the order of its keys.
///
/// It never changes, so threads share it.
#[derive(Drop)]
pub struct Frozen {
    lo: u64,
    hi: u64,
    change: u64,
    bytes: u64,
    items: Vec<Item>,
}

impl Model for Frozen {
    ghost use Rattle.std.specs.Prelude.{◌≡◌, sum_by};
    ghost use Rattle.mg_types.specs.Items.{size_of};
    ghost use Rattle.mg_mem.specs.Memtable.{FrozenMemtable, IsMemtable};

    ghost Value = { FrozenMemtable };

    ghost view = { λ f. record { lo = f.lo; hi = f.hi; change = f.change; items = f.items.items } };

    ghost invariant = { λ f. IsMemtable (record { lo = f.lo; hi = f.hi; items = f.items.items }) × (f.bytes ≡ sum_by size_of f.items.items) };
}

impl Frozen {
    /// A memtable of these items, which have these bytes.
    pub(crate) fn new(lo: u64, hi: u64, change: u64, bytes: u64, items: Vec<Item>) -> Frozen
        requires form { IsMemtable (record { lo = lo; hi = hi; items = items.items }) }
        requires bytes { bytes ≡ sum_by size_of items.items }
        ensures { result ≡ record { lo = lo; hi = hi; change = change; items = items.items } }
    {
        Frozen {
            lo,
            hi,
            change,
            bytes,
            items,
        }
    }

    /// The number below the first one of the interval.
    pub fn lo(&self) -> u64
        ensures { result ≡ self.now.lo }
    {
        self.lo
    }

    /// The last number of the interval.
    pub fn hi(&self) -> u64
        ensures { result ≡ self.now.hi }
    {
        self.hi
    }

    /// How many changes the partition had made when the memtable was frozen.
    pub fn change(&self) -> u64
        ensures { result ≡ self.now.change }
    {
        self.change
    }

    /// The items in the order of their keys.
    pub fn items(&self) -> &[Item]
        ensures items { result.now ≡ self.now.items }
        ensures form { IsMemtable (thawed self.now) }
    {
        self.items.as_slice()
    }

    /// The bytes of all keys and documents that it has. Takes no time: the sum is kept.
    pub fn bytes(&self) -> u64
        ensures { result ≡ sum_by size_of self.now.items }
    {
        self.bytes
    }

    /// The item of a key, in time that grows with the logarithm of their count.
    pub fn get(&self, key: &Key) -> Option<&Item>
        ensures { option_copied result ≡ item_of_key self.now.items key.now }
    {
        find(self.items.as_slice(), key)
    }

    /// The items in the order of their numbers, where they stand: none is copied.
    pub fn by_number(&self, alloc: Global) -> Result<Vec<&Item>, Fault>
        ensures rising { IfOk result (λ items. RisesBy (λ i. i.seq) (map (λ i. i.now) items.items)) }
        ensures members { IfOk result (λ items. SameMembers (map (λ i. i.now) items.items) self.now.items) }
        ensures err { IsOkUnless result Fault.NoMemory }
    {
        sorted(self.items.as_slice(), alloc)
    }
}

/// Whether two frozen memtables are the same in all that they have. It compares documents byte by byte.
pub fn same(a: &Frozen, b: &Frozen) -> bool
    ensures { IsTrue result ↔ (a.now ≡ b.now) }
{
    a.lo == b.lo && a.hi == b.hi && a.change == b.change && same_items(&a.items, &b.items)
}

fn same_items(a: &[Item], b: &[Item]) -> bool
    ensures { IsTrue result ↔ (a.now ≡ b.now) }
{
    if a.len() != b.len() {
        return false;
    }
    for (x, y) in a.iter().zip(b) {
        if !items::same(x, y) {
            return false;
        }
    }
    true
}

/// The item of a key among items in the order of their keys.
fn find<'a>(items: &'a [Item], key: &Key) -> Option<&'a Item>
    requires { IsStrictlySortedBy (slice_cmp nat_cmp) (map (λ i. i.key) items.now) }
    ensures { option_copied result ≡ item_of_key items.now key.now }
{
    match items.binary_search_by(|item| item.key.cmp(key)) {
        Ok(at) => Some(&items[at]),
        Err(_) => None,
    }
}

/// Items in the order of their numbers.
fn sorted(items: &[Item], alloc: Global) -> Result<Vec<&Item>, Fault>
    requires { (n : ℕ) → times (λ i. i.seq) n items.now ≤ 1 }
    ensures rising { IfOk result (λ sorted. RisesBy (λ i. i.seq) (map (λ i. i.now) sorted.items)) }
    ensures members { IfOk result (λ sorted. SameMembers (map (λ i. i.now) sorted.items) items.now) }
    ensures err { IsOkUnless result Fault.NoMemory }
{
    let mut sorted = references(items, alloc)?;
    sorted.sort_unstable_by_key(|item| item.seq);
    Ok(sorted)
}

fn references(items: &[Item], alloc: Global) -> Result<Vec<&Item>, AllocError>
    ensures { IfOk result (λ all. map (λ i. i.now) all.items ≡ items.now) }
{
    items.iter().collect(alloc)
}
