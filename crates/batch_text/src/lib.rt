//! The text of a batch: one command in each line.
#![tactic(auto)]

mod limits;
mod reader;
#[cfg(test)]
mod tests;
mod words;

pub use limits::{MAX_BATCH_BYTES, MAX_COMMANDS, law_of_limits};
pub use reader::read_commands;
