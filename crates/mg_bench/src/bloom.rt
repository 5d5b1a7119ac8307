//! Workloads over filters, with keys of 8 bytes and those that `size` asks for more, at most 250.

ghost use Rattle.std.specs.Prelude.{◌≤◌, ◌^◌, length, IfOk};

use mg_bloom::{Filter, HashedKey};
use std::alloc::{AllocError, Global};

/// How many filters one look-up asks.
const FILTERS: u64 = 16;

/// How many keys each of them has.
const KEYS_EACH: u64 = 4_096;

const MOST_KEY_BYTES: usize = 250;

/// A key of a number: `size` bytes, from 8 to 250, of which the first 8 tell the number.
#[derive(Drop)]
struct Key {
    bytes: [u8; MOST_KEY_BYTES],
    length: usize,
    ghost within: { length ≤ 250 },
}

impl Key {
    fn new(size: usize) -> Key {
        Key {
            bytes: [b'k'; MOST_KEY_BYTES],
            length: size.clamp(8, MOST_KEY_BYTES),
        }
    }

    fn number(&mut self, number: u64) -> &[u8] {
        let [a, b, c, d, e, f, g, h] = number.to_be_bytes();
        self.bytes[0] = a;
        self.bytes[1] = b;
        self.bytes[2] = c;
        self.bytes[3] = d;
        self.bytes[4] = e;
        self.bytes[5] = f;
        self.bytes[6] = g;
        self.bytes[7] = h;
        &self.bytes[..self.length]
    }
}

/// Puts `count` keys into one filter of the size for so many.
pub fn filter_put(alloc: Global, count: u64, size: usize) -> Result<u64, AllocError> {
    let mut filter = Filter::sized(alloc, count)?;
    let mut key = Key::new(size);
    for number in 0..count {
        filter.put(key.number(number));
    }
    Ok(
        filter.bytes().iter().fold(
            0,
            |checksum: u64, byte| checksum.rotate_left(1) ^ u64::from(*byte),
        ),
    )
}

fn filters(alloc: Global, size: usize) -> Result<Vec<Filter>, AllocError> {
    let mut filters = Vec::new(alloc);
    let mut key = Key::new(size);
    for place in 0..FILTERS {
        let mut filter = Filter::sized(alloc, KEYS_EACH)?;
        for number in 0..KEYS_EACH {
            filter.put(key.number(place * KEYS_EACH + number));
        }
        filters.push(filter)?;
    }
    Ok(filters)
}

/// `count` look-ups, each of which hashes its key for each of 16 filters of 4,096 keys.
pub fn filter_ask(alloc: Global, count: u64, size: usize) -> Result<u64, AllocError> {
    let filters = filters(alloc, size)?;
    let mut key = Key::new(size);
    let mut held: u64 = 0;
    for number in 0..count {
        let bytes = key.number(number);
        let many = filters
            .iter()
            .filter(|filter| filter.may_hold(bytes))
            .count();
        held = held.wrapping_add(many as u64);
    }
    Ok(held)
}

/// `count` look-ups, each of which hashes its key once and asks 16 filters of 4,096 keys.
pub fn filter_ask_hashed(alloc: Global, count: u64, size: usize) -> Result<u64, AllocError> {
    let filters = filters(alloc, size)?;
    let mut key = Key::new(size);
    let mut held: u64 = 0;
    for number in 0..count {
        let hashed = HashedKey::new(key.number(number));
        let many = filters
            .iter()
            .filter(|filter| filter.may_hold_hashed(&hashed))
            .count();
        held = held.wrapping_add(many as u64);
    }
    Ok(held)
}
