//! What a file of the scheme is: its text, its head, the tests of its bytes in their order, and the
//! faults. Nothing here reads or writes a file.
#![tactic(auto)]

mod faults;
mod file_kind;
mod file_laws;
mod head;
mod worked_rows;

pub use faults::FileFault;
pub use file_kind::FileKind;
pub use file_laws::law_of_files;
pub use head::{Head, Wanted};
pub use worked_rows::law_of_worked_rows;
