//! The store of one thread: all partitions over the one shared log.
//!
//! `open` recovers the log and makes the changes of its records. Then each call is answered as the plain list of its
//! partition answers it, and each change is in the log before its answer.
#![tactic(auto)]

#[cfg(test)]
mod crash_tests;
#[cfg(test)]
mod fixtures;
pub mod laws;
mod opening;
mod partition;
#[cfg(test)]
mod refusal_tests;
mod replay;
mod store;
#[cfg(test)]
mod tests;

pub use mg_wal::RecoverError;
pub use opening::open;
pub use partition::Partition;
pub use store::Store;
