//! The mathematics at the bottom: whole numbers modulo m, the ring of polynomials modulo `X^n + 1`, rows of residues and
//! the transform. The definitions stand in `specs/`, their laws in `proofs/`; the code is the plain product and the plain
//! turn, and the laws of the ring as contracts.
#![tactic(auto)]

pub mod laws;
pub mod plain;

pub use laws::{
    centred_residue_laws, representation_laws, ring_product_laws, ring_size_laws, ring_sum_laws,
    ring_turn_laws, transform_laws,
};
pub use plain::{product_plain, turn_plain};

#[cfg(test)]
mod tests;
