//! Conversions of rows between bases, coefficient by coefficient, without numbers longer than two
//! words (Bajard, Eynard, Hasan and Zucca 2016).
//!
//! Row i of a slice of rows is under modulus i. Each converter prepares its constants once; its
//! call takes no memory of its own.
#![tactic(auto)]

mod back;
mod convert;
mod dropping;
mod floor;
mod inputs;
mod inverses;
mod lift;
mod outputs;
#[cfg(test)]
mod set_rows;
#[cfg(test)]
mod tests;

pub use back::SkBack;
pub use convert::FastConv;
pub use dropping::DropLast;
pub use floor::FastFloor;
pub use lift::MontLift;
