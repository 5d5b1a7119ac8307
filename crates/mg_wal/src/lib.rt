//! The one list of changes of all partitions, and the volume that keeps it as a shared log.
//!
//! `recover` opens a volume and answers the records that it has. Then records are reserved, pushed and synced, and logs that no
//! partition needs are released.
#![tactic(auto)]

mod devices;
mod finding;
#[cfg(test)]
mod fixtures;
mod frames;
mod heads;
mod known;
pub mod laws;
mod ledger;
mod named;
mod pieces;
mod reading;
mod receipt;
mod recovery;
#[cfg(test)]
mod recovery_tests;
mod state;
mod strays;
mod stream;
#[cfg(test)]
mod tests;
#[cfg(test)]
mod turn_tests;

pub use known::{KnownLog, log_file};
pub use named::{LogNames, NamedState, Wal, push_one, share};
pub use receipt::Receipt;
pub use recovery::{RecoverError, recover};
pub use state::WalState;
