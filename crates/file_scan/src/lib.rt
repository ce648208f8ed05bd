//! Files of version 1, scanned: read once in pieces, and tested for being what is wanted.
#![tactic(auto)]

mod field_rules;
mod file_part;
mod front;
mod layout;
mod row_moduli;
mod scanning;
#[cfg(test)]
mod tests;
mod words;

pub use file_model::{FileFault, Head, Wanted};
pub use layout::{FORMAT_NAME, HEAD_BYTES, PIECE_BYTES, PIECE_WORDS, VERSION, WORD_BYTES};
pub use row_moduli::row_modulus;
pub use scanning::scan;
