//! What the shared log is made of, without any device: heads and records, their spelling both ways, and what the bytes of logs
//! give after a crash.
#![tactic(auto)]

mod change;
mod faults;
mod head;
pub mod laws;
mod log;
mod record;
#[cfg(test)]
mod tests;

pub use head::{Head, check_newest, put_head, read_head};
pub use log::{LogRecords, read_log};
pub use record::{Rec, put_record, put_record_frame, read_record, record_len};
