//! Bases of coprime moduli, and the table of the parameter sets' roots with the proof that the
//! numbers of each set fit together.
#![tactic(auto)]

mod base;
mod sets;

pub use base::{Base, BaseFault};
pub use sets::{SetTable, table};
