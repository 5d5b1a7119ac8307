//! Blocks of a table: pairs of a key and a payload in rising order of the keys, spelled with prefix
//! compression, as in a LevelDB block without restart points.
//!
//! An item is `shared` (one byte), the length of the rest of the key (one byte), that rest, the length
//! of the payload (one byte) and the payload. The key is the first `shared` bytes of the key before it
//! and then the rest; `shared` is the longest that it can be, and 0 for the first item. A block is its
//! items one after the other, without a count, so a list of pairs has one spelling. Keys have 1 to 250
//! bytes and strictly rise in byte order, and a payload has at most 255 bytes.
#![tactic(auto)]

mod builder;
mod cursor;
mod item;
mod key;
mod lookup;
mod pair;
mod reading;
mod whole;

pub use builder::BlockBuilder;
pub use cursor::BlockCursor;
pub use key::shared_len;
pub use lookup::find;
pub use pair::{BlockError, NoRoom, NotABlock, Pair};
pub use reading::one_reading;
pub use whole::{build, items};

#[cfg(test)]
mod tests;
