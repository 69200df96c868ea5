//! Rows of numbers of one width, in blocks of memory that are claimed as they are needed and never move.
#![tactic(auto)]

mod block;
mod cells;
mod chunk;

pub use cells::Cells;
