ghost use Rattle.std.specs.Prelude.{◌≡◌};
ghost use Rattle.mg_block.specs.declared.pair.BlockError.TheVariants as errors;

use mg_items::Items;
use std::alloc::{AllocError, AllocFailed};
use thiserror::Error;

/// A key and its payload.
#[derive(Debug, Drop)]
pub struct Pair {
    pub key: Items<u8>,
    pub payload: Items<u8>,
}

/// There is no memory for a block.
#[derive(Clone, Copy, Debug, PartialEq, Eq, Error)]
#[error("no memory")]
pub struct NoRoom;

/// The bytes are no block.
#[derive(Clone, Copy, Debug, PartialEq, Eq, Error)]
#[error("not a block at {at}")]
pub struct NotABlock {
    /// Where the first item begins that is not in the grammar behind the items before it.
    pub at: u64,
}

/// Why the pairs of a block are not listed.
#[derive(Clone, Copy, Debug, PartialEq, Eq, Error)]
pub enum BlockError {
    #[error("no memory")]
    NoMemory,
    /// As [`NotABlock`].
    #[error("not a block at {at}")]
    NotABlock { at: u64 },
}

impl From<NotABlock> for BlockError {
    ghost from_gives = { λ refused e. e ≡ errors.NotABlock refused.at };

    fn from(refused: NotABlock) -> BlockError {
        BlockError::NotABlock { at: refused.at }
    }
}

impl From<NoRoom> for BlockError {
    ghost from_gives = { λ _ e. e ≡ errors.NoMemory };

    fn from(_refused: NoRoom) -> BlockError {
        BlockError::NoMemory
    }
}

impl From<AllocError> for BlockError {
    ghost from_gives = { λ _ e. e ≡ errors.NoMemory };

    fn from(_refused: AllocError) -> BlockError {
        BlockError::NoMemory
    }
}

impl<T: Drop> From<AllocFailed<T>> for BlockError {
    ghost from_gives = { λ _ e. e ≡ errors.NoMemory };

    fn from(_refused: AllocFailed<T>) -> BlockError {
        BlockError::NoMemory
    }
}
