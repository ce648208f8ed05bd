//! The number-theoretic transform of rows of residues, with which products modulo `X^N + 1` and a modulus q are products
//! word by word.
//!
//! A row is the list of the N coefficients of a polynomial, or of its values at the odd powers of a root, each a residue
//! modulo q. Between the layers of a transform words are reduced only so far that they can be added: below 4q on the way
//! there and below 2q on the way back (Harvey 2014).
#![tactic(auto)]

mod laws;
mod layers;
mod roots;
#[cfg(test)]
mod tests;
mod transform;

pub use laws::transform_product_law;
pub use transform::{Transform, TransformFault};
