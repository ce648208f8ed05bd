//! The texts that people write and read: lists of values, and scripts of operations on them.
#![tactic(auto)]

mod draft;
mod evaluator;
mod faults;
mod keyword;
mod laws;
mod limits;
mod maker;
mod parser;
mod printer;
mod reading;
mod script;
#[cfg(test)]
mod tests;
mod values;
mod words;

pub use evaluator::evaluate;
pub use faults::{ScriptFault, ScriptPlace, ValueFault, ValuePlace};
pub use laws::{law_of_faults, law_of_printed_values, law_of_printing, law_of_reading};
pub use limits::{MAX_INPUTS, MAX_SCRIPT_BYTES, MAX_STEPS, MAX_VALUES_BYTES, law_of_limits};
pub use maker::{MakeFault, Refusal, ScriptMaker};
pub use parser::parse;
pub use printer::print;
pub use reading::read_values;
pub use script::{InputKind, Op, Script, Shape};
pub use values::print_values;
