//! Files of blocks: sealed files of block frames, an index frame, for some kinds a filter frame, and a footer frame.
//!
//! Here is the one form of footer and index, how they are judged where a file is loaded, and how they are written behind the
//! blocks. A kind of files has its type of first keys, by [`BlockKey`], and the type of what its blocks hold, by [`BlockItem`]. How
//! a block is spelled is said by the crates above.
#![tactic(auto)]

mod footer;
mod handle;
mod index;
mod indexed;
mod item;
mod key;
pub mod laws;
mod loading;
mod number_key;
mod table_key;
#[cfg(test)]
mod tests;
mod writing;

pub use footer::{Footer, Summary, footer_body};
pub use handle::BlockHandle;
pub use index::index_body;
pub use indexed::Indexed;
pub use item::BlockItem;
pub use key::BlockKey;
pub use loading::{FILTERED_FOOTER_LEN, footer_len, load};
pub use writing::ClosedBlocks;
