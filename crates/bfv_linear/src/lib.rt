//! Linear operations on ciphertexts of two and three parts, part by part and row by row: sums, differences, negatives, and
//! products with a plaintext or a constant. None of them takes memory.
//!
//! What a result holds is said for every secret: where the operands hold plaintexts within some bounds on their noise, the
//! result holds the plaintext of the operation within a bound that these give.
#![tactic(auto)]

mod centred;
mod plaintexts;
mod products;
mod signs;
mod sums;
#[cfg(test)]
mod tests;

pub use plaintexts::{add_plain, sub_plain};
pub use products::{mul_const, mul_plain};
pub use sums::{add, neg, sub};
