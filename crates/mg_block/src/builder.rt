ghost use Rattle.std.specs.Prelude.{◌≡◌, ◌+◌, ◌<◌, ◌↔◌, [], ◌∷◌, ◌++◌, length, take, IsTrue, OnOk, OnErr};
ghost use Rattle.mg_block.specs.Item.{spelled};
ghost use Rattle.mg_block.specs.Block.{block_of, Follows, AreRising};
ghost use Rattle.mg_block.specs.View.{last_pair};

use super::key::{KEY_LIMIT, KeyBuffer, PAYLOAD_LIMIT, shared_len};
use super::pair::NoRoom;
use std::alloc::{AllocError, Global};
use std::cmp::Ordering;
use std::marker::Model;

/// Builds a block pair by pair, as LevelDB's `BlockBuilder` does.
#[derive(Drop)]
pub struct BlockBuilder {
    bytes: Vec<u8>,
    last_key: KeyBuffer,
}

impl Model for BlockBuilder {
    ghost use Rattle.std.specs.Prelude.{List};
    ghost use Rattle.mg_block.specs.View.{pairs_of};
    ghost use Rattle.mg_block.specs.Builder.{Holds};
    ghost use Rattle.mg_block.specs.declared.pair.Pair.{Pair};

    ghost Value = { List Pair };

    ghost view = { λ b. pairs_of b.bytes.items };

    ghost invariant = { λ b. Holds b.bytes.items b.last_key (pairs_of b.bytes.items) };
}

impl BlockBuilder {
    /// Takes no memory until the first pair comes.
    pub fn new(alloc: Global) -> BlockBuilder
        ensures { result ≡ [] }
    {
        BlockBuilder {
            bytes: Vec::new(alloc),
            last_key: KeyBuffer::new(),
        }
    }

    /// Whether the pair may stand at the end: its key is above the last one and has at most 250 bytes,
    /// and its payload has at most 255.
    pub fn may_push(&self, key: &[u8], payload: &[u8]) -> bool
        ensures { IsTrue result ↔ Follows (last_pair self.now).key (record { key = key.now; payload = payload.now }) }
    {
        self.last_key.as_slice().cmp(key) == Ordering::Less
            && key.len() <= KEY_LIMIT
            && payload.len() <= PAYLOAD_LIMIT
    }

    /// Puts a pair at the end.
    pub fn push(&mut self, key: &[u8], payload: &[u8]) -> Result<(), NoRoom>
        requires { Follows (last_pair self.old).key (record { key = key.now; payload = payload.now }) }
        ensures ok { OnOk result (self.new ≡ self.old ++ record { key = key.now; payload = payload.now } ∷ []) }
        ensures err { OnErr result (self.new ≡ self.old) }
    {
        let shared = shared_len(self.last_key.as_slice(), key);
        let (_, rest) = key.split_at(shared);
        append_item(&mut self.bytes, shared as u8, rest, payload)?;
        self.last_key.replace_end(shared, rest);
        Ok(())
    }

    /// The length of the block with this pair more.
    pub fn size_with(&self, key: &[u8], payload: &[u8]) -> usize
        requires { Follows (last_pair self.now).key (record { key = key.now; payload = payload.now }) }
        ensures { result ≡ length (block_of (self.now ++ record { key = key.now; payload = payload.now } ∷ [])) }
    {
        let shared = shared_len(self.last_key.as_slice(), key);
        self.bytes.len() + 3 + (key.len() - shared) + payload.len()
    }

    /// The length of the block.
    pub fn size(&self) -> usize
        ensures { result ≡ length (block_of self.now) }
    {
        self.bytes.len()
    }

    pub fn is_empty(&self) -> bool
        ensures { IsTrue result ↔ (self.now ≡ []) }
    {
        self.bytes.is_empty()
    }

    /// The block.
    pub fn bytes(&self) -> &[u8]
        ensures block { result.now ≡ block_of self.now }
        ensures rising { AreRising self.now }
    {
        self.bytes.as_slice()
    }

    /// The block, without a copy.
    pub fn finish(self) -> Vec<u8>
        ensures block { result.items ≡ block_of self }
        ensures rising { AreRising self }
    {
        let BlockBuilder { bytes, last_key: _ } = self;
        bytes
    }

    /// Forgets the pairs and keeps the memory.
    pub fn clear(&mut self)
        ensures { self.new ≡ [] }
    {
        self.bytes.clear();
        self.last_key = KeyBuffer::new();
    }
}

/// Appends an item, or nothing for want of memory.
fn append_item(bytes: &mut Vec<u8>, shared: u8, rest: &[u8], payload: &[u8]) -> Result<(), NoRoom>
    requires rest { length rest.now < 256 }
    requires payload { length payload.now < 256 }
    ensures ok { OnOk result (bytes.new.items ≡ bytes.old.items ++ spelled shared rest.now payload.now) }
    ensures err { OnErr result (bytes.new.items ≡ bytes.old.items) }
{
    let len = bytes.len();
    if write_item(bytes, shared, rest, payload).is_err() {
        bytes.truncate(len);
        return Err(NoRoom);
    }
    Ok(())
}

/// Writes an item at the end, or a front of it for want of memory.
fn write_item(
    bytes: &mut Vec<u8>,
    shared: u8,
    rest: &[u8],
    payload: &[u8],
) -> Result<(), AllocError>
    requires rest { length rest.now < 256 }
    requires payload { length payload.now < 256 }
    ensures ok { OnOk result (bytes.new.items ≡ bytes.old.items ++ spelled shared rest.now payload.now) }
    ensures err { OnErr result (take (length bytes.old.items) bytes.new.items ≡ bytes.old.items) }
{
    bytes.push(shared)?;
    bytes.push(rest.len() as u8)?;
    bytes.extend_from_slice(rest)?;
    bytes.push(payload.len() as u8)?;
    bytes.extend_from_slice(payload)
}
