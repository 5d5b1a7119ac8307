//! Sealed files: frames numbered 0, 1, 2 in order of place, written once and never changed.
//!
//! Here is the one place where a frame of a sealed file is read through a port and judged: that it lies within the file,
//! that it has the number that is asked for, and that its digest is that of its bytes, in this order. Every kind of sealed
//! file is read and written through this crate.
#![tactic(auto)]

mod blocks;
mod counting;
mod errors;
pub mod laws;
mod numbers;
mod reading;
#[cfg(test)]
mod tests;
mod writing;

pub use blocks::{BLOCK_LIMIT, Block, Blocks};
pub use counting::CountingFiles;
pub use errors::{damaged, malformed};
pub use numbers::{check_numbers, check_offset, grown};
pub use reading::{Frame, SealedFile, open_sealed, read_footer, read_frame};
pub use writing::{
    FrameWriter, Placed, append_frame, seal_frames, start_frames, written_frame_is_read,
};
