//! What the program does, as one call: a command line's words, a store of files and a sink of text
//! go in, and a status comes out.
#![tactic(auto)]

mod answer;
mod batch;
mod execution;
mod run_output;
mod run_script;

pub use answer::command;
