//! The words of a command line and the answers to them: which forms words have, what each status
//! means as a number and as a printed line.
#![tactic(auto)]

mod form;
mod line;
mod status;
mod step;
#[cfg(test)]
mod tests;

pub use form::{Form, binding_file, binding_name, form_of};
pub use line::{accepted_line, put_line};
pub use status::{BindingFault, Status};
pub use step::{Step, step_named};
