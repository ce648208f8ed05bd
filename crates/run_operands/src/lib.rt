//! What `run` reads before its first step: the bindings, the files that they name, and whether these
//! fit the script.
#![tactic(auto)]

mod bindings;
mod bound_files;
mod matching;
mod ordering;

pub use bindings::{file_bound, input_named, match_bindings, name_bound, place_bound};
pub use bound_files::{BoundCipher, Operand, read_operands};
pub use matching::{first_key_id, match_operands};
pub use ordering::{ciphers_in_order, plain_places};
