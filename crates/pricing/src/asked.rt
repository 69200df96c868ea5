//! What one pricing is over: an aircraft of a book, by a table of costs, under marks and duals, with what was made of the book
//! before. It only borrows these, so each step of pricing is handed the same one.

use branch_marks::Marks;
use connection_net::Net;
use maint_counters::StepTable;
use tail_book::{Book, CostTable, Duals};

/// An aircraft of a book, by a table of costs, under marks and duals.
#[derive(Clone, Copy)]
pub struct Asked<'a> {
    pub book: &'a Book,
    pub table: &'a CostTable,
    pub net: &'a Net,
    pub marks: &'a Marks,
    pub duals: &'a Duals,
    pub steps: &'a StepTable,
    pub k: u32,
}
