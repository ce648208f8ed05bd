//! Encryption under a public key (Fan and Vercauteren 2012).
#![tactic(auto)]

mod fresh_cipher;
#[cfg(test)]
mod tests;

pub use fresh_cipher::encrypt;
