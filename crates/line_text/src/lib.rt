//! The lines and words of a text, and the names and numbers that words may be.
#![tactic(auto)]

mod lines;
mod name;
mod words;

pub use lines::{count_lines, count_words, is_blank_in_line, is_passed_over, word};
pub use name::Name;
pub use words::{all_digits, is_name, number_in, read_number};
