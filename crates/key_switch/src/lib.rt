//! Key switching with a special modulus P (Bajard, Eynard, Hasan and Zucca 2016): switching keys, which a provider gives
//! digit by digit, how they are made, and the pair that stands for a part of a ciphertext times what a key switches from.
//!
//! Digit i of a polynomial is its residue modulo data modulus i, as a whole number. The digits, each times the digit of
//! the key of the same number, are added up modulo the data moduli and P, and the sum is divided by P.
#![tactic(auto)]

mod digits;
mod making;
mod memory;
mod provider;
mod sources;
mod sums;
mod switching;
#[cfg(test)]
mod tests;

pub use making::{law_of_made_keys, make_digit};
pub use memory::MemKeys;
pub use provider::{KeyFault, Keys};
pub use sources::{relin_source, turn_source};
pub use switching::{apply, apply_in_memory};
