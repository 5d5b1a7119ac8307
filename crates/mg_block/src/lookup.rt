ghost use Rattle.std.specs.Prelude.{◌≡◌, ◌≤◌, ◌++◌, ℕ, List, length, take, drop, IsOkAnd, IfOk, OnErr, MatchOption, MatchResult};
ghost use Rattle.std.specs.Option.{option_map};
ghost use Rattle.mg_block.specs.Block.{IsBlock};
ghost use Rattle.mg_block.specs.Item.{Extends};
ghost use Rattle.mg_block.specs.Matches.{Matches};
ghost use Rattle.mg_block.specs.Place.{StandsAt};
ghost use Rattle.mg_block.specs.Search.{Finds, Misses, Breaks, payload_of};
ghost use Rattle.mg_block.specs.declared.pair.Pair.{Pair};

use super::item::{Item, next_item};
use super::key::{KeyBuffer, shared_len};
use super::pair::NotABlock;

/// The payload of a key in a block: its length, and the payload at the front of `out`.
///
/// Takes no memory. Reads items from the front, and no further than the first whose key is not below
/// the sought one: so what stands behind that one is not looked at. No whole key is compared: of each
/// item only bytes behind the front that the key before it shares with the sought one.
pub fn find(block: &[u8], key: &[u8], out: &mut [u8; 255]) -> Result<Option<u8>, NotABlock>
    ensures answer { MatchResult result
        (λ found. MatchOption found
        (Misses block.now key.now)
        (λ len. Finds block.now key.now (take len out.new)))
        (λ refused. Breaks block.now key.now refused.at) }
    // In a block it is the answer of the list.
    ensures in_block { (pairs : List Pair) → IsBlock block.now pairs → IsOkAnd result (λ found.
        option_map (λ len. take len out.new) found ≡ payload_of key.now pairs) }
    ensures beyond { IfOk result (λ found. MatchOption found
        (out.new ≡ out.old)
        (λ len. drop len out.new ≡ drop len out.old)) }
    ensures err { OnErr result (out.new ≡ out.old) }
{
    let mut previous = KeyBuffer::new();
    let mut matched = 0;
    let mut rest = block;
    while !rest.is_empty() {
        let Some((item, after)) = next_item(previous.as_slice(), rest) else {
            let at = block.len() - rest.len();
            return Err(NotABlock { at: at as u64 });
        };
        match compare(item, matched, key) {
            Place::Below(longer) => matched = longer,
            Place::Here => {
                let len = item.payload.len();
                out[..len].copy_from_slice(item.payload);
                return Ok(Some(len as u8));
            }
            Place::Above => return Ok(None),
        }
        previous.replace_end(usize::from(item.shared), item.rest);
        rest = after;
    }
    Ok(None)
}

/// Where a key stands beside a sought one.
enum Place {
    /// It is below, and shares so many bytes with the sought one.
    Below(usize),
    Here,
    Above,
}

/// Where the key of an item stands beside the sought key, with which the key before it shares
/// `matched` bytes.
fn compare(item: Item<'_>, matched: usize, key: &[u8]) -> Place
    requires { matched ≤ length key.now }
    ensures { (previous : List ℕ) → Extends previous item.entry.shared item.entry.rest.now → Matches previous matched key.now →
        StandsAt result (take item.entry.shared previous ++ item.entry.rest.now) key.now }
{
    let shared = usize::from(item.shared);
    if shared > matched {
        return Place::Below(matched);
    }
    if shared < matched {
        return Place::Above;
    }
    let (_, tail) = key.split_at(matched);
    let len = shared_len(item.rest, tail);
    if len == tail.len() {
        if len == item.rest.len() {
            Place::Here
        } else {
            Place::Above
        }
    } else if len == item.rest.len() || item.rest[len] < tail[len] {
        Place::Below(matched + len)
    } else {
        Place::Above
    }
}
