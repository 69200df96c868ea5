//! The frame of a run, which the three programs share: the words and the tables that they name, what a run answers, how that
//! is printed, and the status that it ends with. What is found in the tables is each program's own.
#![tactic(auto)]

mod answer;
mod printout;
mod process;
mod status;
mod table_files;
mod tables;
mod words;

pub use answer::{Answer, Finding};
pub use printout::print;
pub use process::{Process, process_of};
pub use status::{NO_MEMORY, READ_FAILED, REFUSED, Ran, Status, USAGE, WRITE_FAILED, audit_status};
pub use table_files::{READ_LIMIT, read_tables};
pub use tables::{TableNames, Tables, book_of};
pub use words::{matched, tables_command, tables_in, value_of};
