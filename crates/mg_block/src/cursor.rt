ghost use Rattle.std.specs.Prelude.{◌≡◌, ◌++◌, [], List, IfOk, IfErr, MatchBool};
ghost use Rattle.mg_block.specs.Block.{IsBlock, BreaksAt};
ghost use Rattle.mg_block.specs.View.{last_pair};
ghost use Rattle.mg_block.specs.Cursor.{Advances, GoesOn};
ghost use Rattle.mg_block.specs.declared.pair.Pair.{Pair};

use super::item::next_item;
use super::key::KeyBuffer;
use super::pair::NotABlock;
use std::marker::Model;

/// Reads a block pair by pair and takes no memory, as a block's iterator in LevelDB does.
///
/// It stands behind the pairs that were read, at first behind none.
#[derive(Drop)]
pub struct BlockCursor<'a> {
    block: &'a [u8],
    rest: &'a [u8],
    key: KeyBuffer,
    payload: &'a [u8],
}

impl<'a> Model for BlockCursor<'a> {
    ghost use Rattle.mg_block.specs.Cursor.{Reading, StandsBehind, read_of};

    ghost Value = { Reading };

    ghost view = { λ c. record { bytes = c.block.now; read = read_of c.block.now c.rest.now } };

    ghost invariant = { λ c. StandsBehind c.block.now (read_of c.block.now c.rest.now) c.rest.now c.key c.payload.now };
}

impl<'a> BlockCursor<'a> {
    pub fn new(block: &'a [u8]) -> BlockCursor<'a>
        ensures bytes { result.bytes ≡ block.now }
        ensures read { result.read ≡ [] }
    {
        BlockCursor {
            block,
            rest: block,
            key: KeyBuffer::new(),
            payload: &[],
        }
    }

    /// Reads the next pair: `true` if there is one, and `false` at the end of the block. The bytes
    /// behind the pair are not looked at.
    pub fn advance(&mut self) -> Result<bool, NotABlock>
        ensures ok { IfOk result (λ more. MatchBool more
            (Advances self.old self.new)
            (IsBlock self.old.bytes self.old.read × (self.new ≡ self.old))) }
        ensures err { IfErr result (λ refused.
            BreaksAt self.old.bytes self.old.read refused.at × (self.new ≡ self.old)) }
        ensures left { (left : List Pair) → IsBlock self.old.bytes (self.old.read ++ left) →
            GoesOn self.old left result self.new }
    {
        if self.rest.is_empty() {
            return Ok(false);
        }
        let Some((item, rest)) = next_item(self.key.as_slice(), self.rest) else {
            let at = self.block.len() - self.rest.len();
            return Err(NotABlock { at: at as u64 });
        };
        self.key.replace_end(usize::from(item.shared), item.rest);
        self.payload = item.payload;
        self.rest = rest;
        Ok(true)
    }

    /// The key of the pair that was read last, empty before the first.
    pub fn key(&self) -> &[u8]
        ensures { result.now ≡ (last_pair self.now.read).key }
    {
        self.key.as_slice()
    }

    /// The payload of the pair that was read last, empty before the first.
    pub fn payload(&self) -> &'a [u8]
        ensures { result.now ≡ (last_pair self.now.read).payload }
    {
        self.payload
    }
}
