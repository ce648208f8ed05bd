//! The commands that answer with a text about a script: `check` and `report`.
#![tactic(auto)]

pub mod check;
mod judge;
pub mod report;

pub use judge::output_bound;
