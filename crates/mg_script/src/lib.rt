//! Scripts and transcripts: what a client's calls look like as text, and the answers to them.
#![tactic(auto)]

mod fields;
mod laws;
mod messages;
mod pieces;
mod script;
mod tokens;
mod transcript;

pub use laws::scripts_have_one_spelling;
pub use messages::fault_text;
pub use script::{Line, read_script};
pub use transcript::{has_line, put_answer, put_end, put_line};

#[cfg(test)]
mod tests;
