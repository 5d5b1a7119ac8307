//! Frames: a body with its length and number before it and a digest after it, so that damage shows when it is read.
//! Beside them the fields of which bodies are made: big-endian numbers and counted byte lists.
#![tactic(auto)]

mod fields;
mod frame;
pub mod laws;
mod split;
#[cfg(test)]
mod tests;

pub use fields::{
    get_long, get_short, get_u8, get_u16, get_u32, get_u64, put_long, put_short, put_u8, put_u16,
    put_u32, put_u64,
};
pub use frame::{
    FRAME_HEADER, FRAME_OVERHEAD, Taken, begin_frame, end_frame, put_frame, take_frame,
};
pub use split::{split_long, split_short, split_u8, split_u16, split_u32, split_u64};
