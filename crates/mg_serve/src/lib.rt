//! The calls of a script, answered one after the other over a store, and the lines that they write.
#![tactic(auto)]

mod ends;
pub mod laws;
mod serving;
mod session;
mod status;
mod writing;

pub use serving::{Served, serve};
pub use session::CLIENTS;
pub use status::status_of;
pub use writing::write_all;
