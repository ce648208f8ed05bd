//! Arithmetic on rows of residues, for the number-theoretic transform and what stands on it.
//!
//! A row is a slice of words of any length, each a residue modulo one modulus q. Sums, differences, negatives and
//! residues of whole chunks of a row go through vector lanes, and the words past the last whole chunk through the
//! same arithmetic word by word; products and butterflies go word by word.
//! All moduli are below 2^61, so that words below 4q can be added.
#![tactic(auto)]

mod lanes;
mod pairs;
mod rows;
#[cfg(test)]
mod tests;
mod two_layers;
mod words;

pub use pairs::{butterflies, butterflies_back, scaled_butterflies_back};
pub use rows::{add_row, fold_row, neg_row, scale_row, scale_row_in_place, sub_row};
pub use two_layers::{
    Root, butterflies_back_twice, butterflies_twice, scaled_butterflies_back_twice,
};

/// How many places a loop of butterflies goes over at once: the compiler writes an inner loop of a fixed length out, word
/// by word, and doesn't put its words into lanes, which have no product of two words.
const UNROLLED: usize = 4;
