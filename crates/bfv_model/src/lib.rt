//! What the words of the scheme mean, and the laws about them. Nothing here computes: other crates'
//! contracts cite these definitions, and their proofs these laws.
#![tactic(auto)]

pub mod cipher_laws;
pub mod decryption_laws;
pub mod key_laws;
pub mod slot_laws;

pub use cipher_laws::{law_of_plain_operations, law_of_products, law_of_sums};
pub use decryption_laws::{law_of_residue_decryption, law_of_rounding};
pub use key_laws::{
    law_of_drawn_switches, law_of_fresh_ciphers, law_of_key_switching, law_of_roots,
    law_of_switched_ciphers,
};
pub use slot_laws::{law_of_encoding, law_of_slots};
