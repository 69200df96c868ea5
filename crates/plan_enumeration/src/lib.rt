//! The least plan of a book, by plain enumeration of who flies what.
#![tactic(auto)]

mod book_tables;
mod cost;
mod enumerate;

pub use enumerate::least_plan;
