//! The scheme's context, which has all that its calls need of a parameter set, and its secrets,
//! keys and ciphertexts, whose words are always reduced.
#![tactic(auto)]

mod cipher;
mod context;
mod converters;
mod moduli;
mod public;
mod ring_products;
mod rows;
mod scaled;
mod secret;
mod switch_key;
#[cfg(test)]
mod tests;
mod transforms;

pub use cipher::Cipher;
pub use context::Context;
pub use public::Public;
pub use ring_products::{
    multiply_into, multiply_transforms_into, product_into, transform_into, transform_small_into,
};
pub use secret::Secret;
pub use switch_key::SwitchKey;
