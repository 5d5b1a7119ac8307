//! What an index says of a block.

/// The first key of a block, the offset of its frame, and the whole length of that frame in bytes.
#[derive(Debug, Drop)]
pub struct BlockHandle<K> {
    pub first: K,
    pub at: u64,
    pub len: u32,
}
