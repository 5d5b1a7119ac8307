ghost use Rattle.std.specs.Prelude.{◌≡◌, ℕ, List, IfOk, MatchResult};
ghost use Rattle.mg_block.specs.Block.{IsBlock, BreaksAt, AreRising};
ghost use Rattle.mg_block.specs.declared.pair.Pair.{Pair};

use super::builder::BlockBuilder;
use super::cursor::BlockCursor;
use super::pair::{BlockError, NoRoom, Pair};
use mg_items::Items;
use std::alloc::Global;

/// The block of these pairs.
pub fn build(alloc: Global, pairs: &[Pair]) -> Result<Vec<u8>, NoRoom>
    requires { AreRising pairs.now }
    ensures { IfOk result (λ block. IsBlock block.items pairs.now) }
{
    let mut builder = BlockBuilder::new(alloc);
    for pair in pairs {
        builder.push(pair.key.as_slice(), pair.payload.as_slice())?;
    }
    Ok(builder.finish())
}

/// The pairs of a block, each in memory of its own.
pub fn items(alloc: Global, block: &[u8]) -> Result<Vec<Pair>, BlockError>
    ensures found { IfOk result (λ pairs. IsBlock block.now pairs.items) }
    ensures not_a_block { (at : ℕ) → result ≡ Err (BlockError.NotABlock at) → (pairs : List Pair) × BreaksAt block.now pairs at }
    // No other pairs are, and no block is refused.
    ensures only { (pairs : List Pair) → IsBlock block.now pairs →
        MatchResult result (λ found. found.items ≡ pairs) (λ refused. refused ≡ BlockError.NoMemory) }
{
    let mut cursor = BlockCursor::new(block);
    let mut pairs = Vec::new(alloc);
    while cursor.advance()? {
        let key = Items::from_slice(alloc, cursor.key())?;
        let payload = Items::from_slice(alloc, cursor.payload())?;
        pairs.push(Pair { key, payload })?;
    }
    Ok(pairs)
}
