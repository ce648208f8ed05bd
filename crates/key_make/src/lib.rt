//! Secrets and public keys, drawn from a generator of random words (Fan and Vercauteren 2012).
//!
//! Each call takes the generator's next words of 64 bits in their order, and no others.
#![tactic(auto)]

mod public_key;
mod secret_key;
#[cfg(test)]
mod tests;

pub use public_key::public;
pub use secret_key::secret;
