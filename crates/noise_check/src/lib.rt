//! Bounds on the noise of each register of a script, and whether the script keeps them within its
//! set's limit.
#![tactic(auto)]

mod checking;
mod laws;
mod operations;
mod sets;
#[cfg(test)]
mod tests;
mod verdict;

pub use checking::{MAX_INPUT_EXPONENT, check, fresh_bounds, switches};
pub use laws::{law_of_rounding, law_of_verdicts};
pub use sets::{fresh, limit};
pub use verdict::{BoundList, Verdict};
