//! Products of ciphertexts, in residues alone (Bajard, Eynard, Hasan and Zucca 2016): the parts of both factors are lifted
//! to further moduli, multiplied by transforms, scaled by t/q, and brought back.
#![tactic(auto)]

mod factors;
mod multiplying;
mod row_products;
mod scaling;
#[cfg(test)]
mod tests;

pub use multiplying::{multiply, square};
