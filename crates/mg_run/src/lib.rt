//! The top calls of the program.
#![tactic(auto)]

mod endings;
mod hosted;
mod reading;
mod single;
mod streams;
mod words;

pub use endings::{Ending, end_program};
pub use single::{Ran, alone, refused};

#[cfg(test)]
mod fixtures;
#[cfg(test)]
mod host_tests;
#[cfg(test)]
mod tests;
