//! Bloom filters: a set of keys that denies most keys which were not put in, and never one that was.
#![tactic(auto)]

mod bits;
mod filter;
mod fold;
mod hashed;
#[cfg(test)]
mod tests;

pub use filter::Filter;
pub use hashed::HashedKey;
