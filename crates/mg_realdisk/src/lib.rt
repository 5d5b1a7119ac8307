//! Devices over a folder of real files. They tell nothing of what they hold; what a crash leaves rests on the system, as
//! `docs/disk-model.md` assumes of it.
//!
//! What is synced, and in which order:
//!
//! - a draft is synced as it is sealed, so before any name stands for it;
//! - where a file is adopted, it is linked from its draft, the folder that holds the name is synced, and then the draft is
//!   unlinked;
//! - a new log is made, synced while it is empty, and then its folder is synced;
//! - where a name is removed, also one that was not there, the folder is synced behind it;
//! - a folder that is missing is made, and then the one that holds it is synced, also where the folder was there; for the
//!   folders above the host's that is done once;
//! - before a volume is lent, each log in it is written anew, into a draft that is synced and renamed over the log; then its
//!   own folder is synced. It costs the length of the logs.
//!
//! One folder serves one host at a time: the host locks it at the first call that touches it, and the system frees the lock
//! with the host, its volumes and ports, also where the process is killed.
#![tactic(auto)]

mod counted;
mod files;
mod folders;
mod hosts;
mod names;
mod opened;
mod roots;
mod volumes;

pub use files::{RealDraft, RealFiles, RealSealed};
pub use hosts::RealHost;
pub use volumes::{RealLog, RealVolume};

#[cfg(test)]
mod tests;
