//! Files of version 1: keys and ciphertexts with a head before the words and a digest behind them.
//! They are read again after a scan, and written, in pieces.
#![tactic(auto)]

mod file_part;
mod file_rows;
mod head_bytes;
mod key_writer;
mod lengths;
mod pieces;
mod reading;
#[cfg(test)]
mod tests;
mod writing;

pub use file_scan::{FileFault, Head, Wanted, scan};
pub use key_writer::KeyWriter;
pub use reading::{read_cipher, read_digit, read_public, read_secret};
pub use writing::{write_cipher, write_public, write_secret};
