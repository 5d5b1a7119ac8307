//! The devices that the engine stands on, as traits with a written meaning: ports that write and read sealed files,
//! volumes that keep names and logs, and the host that lends both.
//!
//! What a crash may leave, and what is assumed of a real device, is told in `docs/disk-model.md`.
#![tactic(auto)]

mod clients;
mod errors;
mod file_clients;
mod hosts;
mod names;
mod ports;
mod thread_clients;
mod volumes;

pub use clients::{append_and_sync, append_behind, read_found, store_log};
pub use errors::DiskError;
pub use file_clients::{adopt_file, read_file, store_file, write_file};
pub use hosts::Host;
pub use mg_types::{Kind, Name};
pub use names::numbers;
pub use ports::{Files, SendFiles};
pub use thread_clients::read_two_files;
pub use volumes::{SendVolume, Volume};
