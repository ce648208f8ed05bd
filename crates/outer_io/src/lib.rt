//! The outside of the program: a store of files and a sink of text.
//!
//! A command speaks to traits, `Store` and `Sink`. In memory they are `MemStore` and `MemSink`,
//! which tell all that they hold; over the real files and the standard output they are `FileStore`
//! and `StdSink`, which tell nothing.
#![tactic(auto)]

mod call_plan;
mod faults;
mod file_store;
mod mem_sink;
mod mem_store;
mod pieces;
mod sink;
mod std_sink;
mod store;
mod transfers;
mod whole_files;

pub use faults::{Damage, SinkFault, StoreFault};
pub use file_store::FileStore;
pub use mem_sink::MemSink;
pub use mem_store::MemStore;
pub use pieces::{put_four, put_three, put_two};
pub use sink::Sink;
pub use std_sink::StdSink;
pub use store::Store;
pub use whole_files::{read_front, read_piece, write_file};

#[cfg(test)]
mod tests;
