//! What a scan asks of the entries that it lists.

ghost use Rattle.std.specs.Prelude.{◌≡◌, ◌≤◌, ◌<◌, ◌^◌, length, take, drop, HoldsAt, MatchOption, MatchResult};
ghost use Rattle.mg_table.specs.Entries.{first_key};
ghost use Rattle.mg_table.specs.Pages.{IsPlaced};
ghost use Rattle.mg_table.specs.Scanning.{item_length, last_key, AreCounted, IsNext};
ghost use Rattle.mg_table.specs.Table.{sizes_of};

use mg_block::shared_len;
use mg_indexed::{BlockHandle, Footer};
use mg_sealed::{BLOCK_LIMIT, malformed};
use mg_types::{Entry, Fault, FileId, Key};
use std::cmp::Ordering;

/// The bytes of an entry's item beside what of its key it spells: the counts of three fields, and the payload.
const ITEM_OVERHEAD: usize = 16;

/// The key of the first entry, empty where there is none.
fn first_key(entries: &[Entry]) -> &[u8]
    ensures key { result.now ≡ first_key entries.now }
    ensures bound { length result.now ≤ 250 }
{
    match entries.first() {
        Some(entry) => entry.key.bytes(),
        None => &[],
    }
}

/// The key of the last entry, empty where there is none.
fn last_key(entries: &[Entry]) -> &[u8]
    ensures { result.now ≡ last_key entries.now }
{
    match entries.last() {
        Some(entry) => entry.key.bytes(),
        None => &[],
    }
}

/// How many bytes the item of an entry of this key has behind the key `previous`.
fn item_len(previous: &[u8], key: &[u8]) -> usize
    requires { length key.now ≤ 250 }
    ensures { result ≡ item_length previous.now key.now }
{
    ITEM_OVERHEAD + (key.len() - shared_len(previous, key))
}

/// Judges the block of `size` bytes whose entries stand behind the first `listed` ones, of which the last ones make a block of `len`
/// bytes: it begins with the key that the index says, above theirs, is not too large, and could not have begun later.
pub(crate) fn check_block(
    id: FileId,
    handle: &BlockHandle<Key>,
    entries: &[Entry],
    listed: usize,
    len: usize,
    size: usize,
) -> Result<(), Fault>
    requires listed { listed ≤ length entries.now }
    requires len { len < 2 ^ 32 }
    ensures { MatchResult result
        (λ _. IsNext handle.now.first (take listed entries.now) len (drop listed entries.now) size)
        (λ fault. (IsNext handle.now.first (take listed entries.now) len (drop listed entries.now) size → ⊥)
        × (fault ≡ Fault.Malformed id handle.now.at)) }
{
    let malformed = malformed(id, handle.at);
    let (before, block) = entries.split_at(listed);
    let first = first_key(block);
    if first != handle.first.bytes() || size > BLOCK_LIMIT {
        return Err(malformed);
    }
    let last = last_key(before);
    if last.cmp(first) != Ordering::Less || len + item_len(last, first) <= BLOCK_LIMIT {
        return Err(malformed);
    }
    Ok(())
}

/// Judges the block of this number by itself, which has `size` bytes and these entries: it begins with the key that the index says,
/// is not too large, and its keys are below that with which the next block begins.
pub(crate) fn check_page(
    id: FileId,
    handles: &[BlockHandle<Key>],
    number: usize,
    entries: &[Entry],
    size: usize,
) -> Result<(), Fault>
    requires { number < length handles.now }
    ensures { MatchResult result
        (λ _. IsPlaced handles.now number entries.now size)
        (λ fault. (IsPlaced handles.now number entries.now size → ⊥)
        × HoldsAt (λ handle. fault ≡ Fault.Malformed id handle.at) handles.now number) }
{
    let handle = &handles[number];
    check_block(id, handle, entries, 0, BLOCK_LIMIT, size)?;
    if let Some(next) = handles.get(number + 1) {
        if last_key(entries).cmp(next.first.bytes()) != Ordering::Less {
            return Err(malformed(id, handle.at));
        }
    }
    Ok(())
}

/// The sum of the entries' sizes, or none where it passes 2^64 - 1.
fn sum_of_sizes(entries: &[Entry]) -> Option<u64>
    ensures { MatchOption result (2 ^ 64 ≤ sizes_of entries.now) (λ sum. sum ≡ sizes_of entries.now) }
{
    let mut sum = 0u64;
    for entry in entries {
        sum = sum.checked_add(u64::from(entry.size))?;
    }
    Some(sum)
}

/// Judges all entries of a table, whose footer stands at an offset: how many they are, and the sum of their sizes.
pub(crate) fn check_counts(
    id: FileId,
    at: u64,
    footer: &Footer,
    entries: &[Entry],
) -> Result<(), Fault>
    ensures { MatchResult result
        (λ _. AreCounted footer.now entries.now)
        (λ fault. (AreCounted footer.now entries.now → ⊥) × (fault ≡ Fault.Malformed id at)) }
{
    let malformed = malformed(id, at);
    if entries.len() as u64 != footer.count {
        return Err(malformed);
    }
    let sizes = footer.sum;
    let Some(sum) = sum_of_sizes(entries) else {
        return Err(malformed);
    };
    if sum != sizes {
        return Err(malformed);
    }
    Ok(())
}
