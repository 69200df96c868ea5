//! Why no plan of a book is legal, or that one is, line by line.
#![tactic(auto)]

pub mod laws;
mod report;
mod shares;
mod shortage_lines;
mod spans;
mod why;

pub use report::write_why;
pub use why::Why;
