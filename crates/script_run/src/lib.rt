//! Runs of scripts on ciphertexts, in a workspace that has all the memory that a run needs.
//!
//! A workspace is made for a script. Its places for the inputs are filled, the script is executed,
//! and the result is read; then they may be filled again.
#![tactic(auto)]

mod key_needs;
mod laws;
mod planning;
mod run;
mod step;
#[cfg(test)]
mod tests;
mod workspace;

pub use key_needs::first_needing_key;
pub use laws::law_of_live;
pub use workspace::Workspace;
