//! The commands that make and use keys and ciphers: `secret`, `public`, `relin`, `turn`, `encrypt`, `decrypt`.
#![tactic(auto)]

pub mod decrypt;
pub mod encrypt;
pub mod public;
pub mod relin;
mod reread;
pub mod secret;
mod switching;
pub mod turn;

pub use reread::{cipher_again, public_again, secret_again};
