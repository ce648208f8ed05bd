//! Values modulo the plaintext modulus t, and the plaintexts that carry them in their slots.
//!
//! The slots of a plaintext are its values at the odd powers of the root, which are the entries of its transform in
//! another order. The laws of sums, products and turns are those of the definition, `law_of_slots` of `bfv_model`.
#![tactic(auto)]

mod batching;
mod places;
#[cfg(test)]
mod tests;

pub use batching::{decode, encode};
