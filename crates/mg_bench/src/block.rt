//! Workloads over blocks of a table.

use mg_block::{BlockBuilder, BlockCursor, BlockError, build, find, items};
use mg_sealed::BLOCK_LIMIT;
use std::alloc::Global;

/// The payload of each key, as long as one of a table.
const PAYLOAD: [u8; 13] = [7; 13];

/// Builds a block of keys of `size` bytes `count` times, and sums up the lengths.
pub fn build_blocks(alloc: Global, count: u64, size: usize) -> Result<u64, BlockError> {
    let block = filled(alloc, size)?;
    let pairs = items(alloc, block.as_slice())?;
    let mut sum = 0u64;
    for _ in 0..count {
        let built = build(alloc, pairs.as_slice())?;
        sum = sum.wrapping_add(built.len() as u64);
    }
    Ok(sum)
}

/// Looks for a key of the block `count` times, each time another one, and sums up the places where
/// payloads stand in the answer.
pub fn find_in_blocks(alloc: Global, count: u64, size: usize) -> Result<u64, BlockError> {
    let block = filled(alloc, size)?;
    let pairs = items(alloc, block.as_slice())?;
    let keys = pairs.len() as u64;
    if keys == 0 {
        return Ok(0);
    }
    let mut out = [0; 255];
    let mut sum = 0u64;
    for n in 0..count {
        let at = n.wrapping_mul(7_919) % keys;
        if let Some(pair) = pairs.get(at as usize) {
            let found = find(block.as_slice(), pair.key.as_slice(), &mut out)?;
            sum = sum.wrapping_add(found.map_or(0, u64::from));
        }
    }
    Ok(sum)
}

/// Lists the pairs of a block `count` times, and sums up how many they are.
pub fn list_blocks(alloc: Global, count: u64, size: usize) -> Result<u64, BlockError> {
    let block = filled(alloc, size)?;
    let mut sum = 0u64;
    for _ in 0..count {
        let pairs = items(alloc, block.as_slice())?;
        sum = sum.wrapping_add(pairs.len() as u64);
    }
    Ok(sum)
}

/// Reads a block pair by pair `count` times, and sums up the bytes of its payloads.
pub fn scan_blocks(alloc: Global, count: u64, size: usize) -> Result<u64, BlockError> {
    let block = filled(alloc, size)?;
    let mut sum = 0u64;
    for _ in 0..count {
        sum = sum.wrapping_add(scan(block.as_slice())?);
    }
    Ok(sum)
}

fn scan(block: &[u8]) -> Result<u64, BlockError> {
    let mut cursor = BlockCursor::new(block);
    let mut sum = 0u64;
    // Each pair has four bytes at least.
    for _ in 0..block.len() {
        if !cursor.advance()? {
            break;
        }
        sum = sum.wrapping_add(cursor.payload().len() as u64);
    }
    Ok(sum)
}

/// A block of as many keys as it has room for, which count up in decimal digits.
fn filled(alloc: Global, size: usize) -> Result<Vec<u8>, BlockError> {
    let mut digits = [b'0'; 250];
    let mut builder = BlockBuilder::new(alloc);
    for _ in 0..BLOCK_LIMIT {
        let key = &digits[..size.min(250)];
        if !builder.may_push(key, &PAYLOAD) || builder.size_with(key, &PAYLOAD) > BLOCK_LIMIT {
            break;
        }
        builder.push(key, &PAYLOAD)?;
        count_up(&mut digits[..size.min(250)]);
    }
    Ok(builder.finish())
}

/// Adds one to a number in decimal digits.
fn count_up(digits: &mut [u8]) {
    for digit in digits.iter_mut().rev() {
        if *digit < b'9' {
            *digit += 1;
            return;
        }
        *digit = b'0';
    }
}
