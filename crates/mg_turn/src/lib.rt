//! A turn: one value that many threads share, which one thread at a time has, and one history of all that they did with it.
//!
//! Whoever takes the turn has the value alone, enters what it does, and gives the turn back. The history is the list of
//! all entries, each with its caller. It exists in proofs alone.
#![tactic(auto)]

mod passes;
mod rule;
mod state;
mod steps;
pub mod tally;
mod turns;

pub use passes::Pass;
pub use state::{Counts, Stands};
pub use turns::{Held, MOST_ENTRIES, Turn};

#[cfg(test)]
mod tests;
