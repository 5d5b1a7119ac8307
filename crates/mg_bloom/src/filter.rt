//! The filter and its body.

ghost use Rattle.std.specs.Prelude.{◌≡◌, ◌*◌, ◌<◌, ◌≤◌, ◌^◌, ℕ, List, false, length, replicate, IsTrue, IfOk, MatchOption};
ghost use Rattle.mg_bloom.specs.Bloom.{bit_count, key_words, has_words, may_hold, AddsWords, IsBodyLength, IsBitCountFor};
ghost use Rattle.mg_bloom.specs.Folding.{KeepsWords};

use crate::bits::{has_words, set_words};
use crate::fold::fold_to;
use crate::hashed::HashedKey;
use std::alloc::{AllocError, Global};
use std::marker::Model;

const LEAST_BITS: u64 = 64;

const MOST_BITS: u64 = 1 << 31;

const BITS_PER_KEY: u64 = 10;

const LEAST_BYTES: usize = 8;

const MOST_BYTES: usize = 1 << 28;

/// A Bloom filter. Contracts see it as its body: the list of bytes that `bytes` gives.
#[derive(Drop)]
pub struct Filter {
    body: Vec<u8>,
}

impl Model for Filter {
    ghost use Rattle.std.specs.Prelude.{List, ℕ, length};
    ghost use Rattle.mg_bloom.specs.Bloom.{IsBodyLength};

    ghost Value = { List ℕ };

    ghost view = { λ f. f.body.items };

    ghost invariant = { λ f. IsBodyLength (length f.body.items) };
}

/// The number of bits of a filter for so many keys.
fn bits_for(keys: u64) -> u64
    ensures { IsBitCountFor keys result }
{
    keys.saturating_mul(BITS_PER_KEY)
        .clamp(LEAST_BITS, MOST_BITS)
        .next_power_of_two()
}

impl Filter {
    /// A filter with no key in it, of ten bits a key or more, up to the largest size of 2^31 bits. With so many keys put in
    /// it is tested to deny at least 98 of 100 others.
    pub fn sized(alloc: Global, keys: u64) -> Result<Filter, AllocError>
        ensures size { IfOk result (λ f. IsBitCountFor keys (bit_count f)) }
        ensures empty { IfOk result (λ f. f ≡ replicate (length f) 0) }
        ensures denies { IfOk result (λ f. (key : List ℕ) → may_hold f key ≡ false) }
    {
        let body = vec![in alloc; 0; (bits_for(keys) / 8) as usize]?;
        Ok(Filter { body })
    }

    /// The filter with this body.
    pub fn of_bytes(bytes: Vec<u8>) -> Option<Filter>
        ensures { MatchOption result (¬ IsBodyLength (length bytes.items)) (λ f. (f ≡ bytes.items) × IsBodyLength (length f)) }
    {
        let fits = (LEAST_BYTES..=MOST_BYTES).contains(&bytes.len());
        if fits && bytes.len().is_power_of_two() {
            Some(Filter { body: bytes })
        } else {
            None
        }
    }

    /// The filter's body, from which `of_bytes` makes it again.
    pub fn bytes(&self) -> &[u8]
        ensures body { result.now ≡ self.now }
        ensures size { IsBodyLength (length self.now) }
    {
        &self.body
    }

    /// Puts a key in. It takes no memory; nearly all of its time is the hash of the key.
    pub fn put(&mut self, key: &[u8])
        ensures exact { AddsWords self.old self.new (key_words key.now) }
        ensures held { IsTrue (may_hold self.new key.now) }
        ensures kept { (other : List ℕ) → IsTrue (may_hold self.old other) → IsTrue (may_hold self.new other) }
    {
        self.put_hashed(&HashedKey::new(key));
    }

    /// `put` of a key that is hashed already.
    pub fn put_hashed(&mut self, key: &HashedKey)
        ensures exact { AddsWords self.old self.new key.now }
        ensures held { IsTrue (has_words self.new key.now) }
        ensures kept { (other : List ℕ) → IsTrue (has_words self.old other) → IsTrue (has_words self.new other) }
    {
        set_words(&mut self.body, key.words());
    }

    /// Folds the filter in halves to the size of one for so many keys, for which it has bits enough: one that was made for as
    /// many keys or more has them. It then has the bits that it would have if the same keys had been put into an empty filter
    /// of that size. It takes no memory, and time in proportion to the filter's size.
    pub fn fold(&mut self, keys: u64)
        requires enough { bit_count self.old < 2 ^ 31 → 10 * keys ≤ bit_count self.old }
        ensures size { IsBitCountFor keys (bit_count self.new) }
        ensures words { KeepsWords self.old self.new }
    {
        fold_to(&mut self.body, (bits_for(keys) / 8) as usize);
    }

    /// How many bytes of memory the filter's body holds. One that was folded keeps the memory that it had before.
    pub fn memory(&self) -> usize
        ensures least { length self.now ≤ result }
    {
        self.body.capacity()
    }

    /// The same filter in memory of its own size: as many bytes as its body has.
    pub fn fitted(&self, alloc: Global) -> Result<Filter, AllocError>
        ensures { IfOk result (λ f. f ≡ self.now) }
    {
        let mut body = Vec::with_capacity(alloc, self.body.len())?;
        body.extend_from_slice(&self.body)?;
        Ok(Filter { body })
    }

    /// Whether the key may have been put in. Where the answer is false, it was not.
    pub fn may_hold(&self, key: &[u8]) -> bool
        ensures { result ≡ may_hold self.now key.now }
    {
        self.may_hold_hashed(&HashedKey::new(key))
    }

    /// `may_hold` of a key that is hashed already.
    pub fn may_hold_hashed(&self, key: &HashedKey) -> bool
        ensures { result ≡ has_words self.now key.now }
    {
        has_words(&self.body, key.words())
    }
}
