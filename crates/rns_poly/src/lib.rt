//! Rows of residues that are borrowed and never copied, and arithmetic on them: each row has a modulus of its own, and
//! rows under several moduli stand for one polynomial of whole numbers.
#![tactic(auto)]

mod all_rows;
mod buffers;
mod one_row;
#[cfg(test)]
mod tests;
mod views;

pub use all_rows::{
    add_into, forward_all, inverse_all, neg_into, pointwise_into, scale_each, set_small, sub_into,
};
pub use buffers::PolyBuf;
pub use views::{View, ViewMut, row_mut, split};
