//! What one pricing with fees is over: an aircraft of a book, by the book's own costs, under marks, duals and fees, and what
//! was made of the book before. It only borrows these, so each step of pricing is handed the same one.

use branch_marks::Marks;
use connection_net::Net;
use maint_counters::StepTable;
use quota_rows::{Fees, Quota};
use tail_book::{Book, CostTable, Duals};

/// An aircraft of a book, by the book's own costs, under marks, duals and fees.
#[derive(Clone, Copy)]
pub struct Asked<'a> {
    pub book: &'a Book,
    pub table: &'a CostTable,
    pub net: &'a Net,
    pub marks: &'a Marks,
    pub duals: &'a Duals,
    pub fees: &'a Fees,
    pub quotas: &'a [Quota],
    pub steps: &'a StepTable,
    pub k: u32,
}
