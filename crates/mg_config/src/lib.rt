//! The settings of the program: what a document of TOML says of them, and which rule it breaks.
#![tactic(auto)]

mod document;
mod settings;
#[cfg(test)]
mod tests;

pub use document::{MAX_LEN, read_settings};
pub use settings::{SettingRange, Settings};
