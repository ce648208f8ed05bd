//! The stages of a command that read one operand: a head, a seed, values, a script; what they say of
//! their results, and what is answered where a file can't be written.
#![tactic(auto)]

mod operand;
mod out_file;
mod scanned;
mod seed;

pub use operand::{name_of, read_script, read_values_named, read_values_operand, unread};
pub use out_file::write_status;
pub use scanned::{match_heads, scan_named, scan_operand, status_of};
pub use seed::{SEED_BYTES, read_seed};
