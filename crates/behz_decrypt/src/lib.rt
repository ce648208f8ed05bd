//! Decryption in residues (Bajard, Eynard, Hasan and Zucca 2016): the phase of a cipher times t is
//! divided by its ciphertext modulus q and rounded, without a number longer than two words.
#![tactic(auto)]

mod decrypting;
mod phases;
mod rounding;
#[cfg(test)]
mod tests;

pub use decrypting::decrypt;
