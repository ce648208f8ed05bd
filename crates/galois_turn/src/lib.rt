//! Turns of polynomials: `X` goes to `X^g` for an odd g, the Galois element, modulo `X^N + 1`.
//!
//! A turn by a power of 3 turns both halves of a plaintext's slots left, and that by `2N - 1` exchanges them: the laws
//! of slots and of turned ciphers, `law_of_slots` and `law_of_switched_ciphers` of `bfv_model`, lead there from the
//! turned rows.
#![tactic(auto)]

mod elements;
mod rows;
#[cfg(test)]
mod tests;

pub use elements::element_of;
pub use rows::turn_rows;
