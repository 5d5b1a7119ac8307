//! Devices in memory, which tell what they hold, and whose calls fail by number. `MemHost` is the host of the tests, and of a
//! program whose store lasts one run.
#![tactic(auto)]

mod bytes;
mod calls;
mod choices;
mod crashes;
mod events;
mod files;
mod hosts;
mod optional;
mod pieces;
mod replays;
mod standings;
mod volumes;

pub use files::{MemDraft, MemFiles, MemSealed};
pub use hosts::MemHost;
pub use volumes::{MemLog, MemVolume};

#[cfg(test)]
mod client_tests;
#[cfg(test)]
mod tests;
