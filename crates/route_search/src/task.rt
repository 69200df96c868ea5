//! What one search is over: a book with its tables, marks and duals, and one aircraft. It only borrows these, so it is
//! handed on as a copy.

ghost use Rattle.tail_book.specs.CostTable.{IsCostTable};
ghost use Rattle.tail_book.specs.inside.Sound.{IsBook};

use branch_marks::Marks;
use connection_net::Net;
use maint_counters::StepTable;
use tail_book::laws::{every_book_is_sound, every_cost_table_is_sound};
use tail_book::{Book, CostTable, Duals};

/// An aircraft of a book, by a table of costs, under marks and duals.
#[derive(Clone, Copy)]
pub struct Task<'a> {
    pub book: &'a Book,
    pub table: &'a CostTable,
    pub net: &'a Net,
    pub steps: &'a StepTable,
    pub marks: &'a Marks,
    pub duals: &'a Duals,
    /// What each activity costs the aircraft less its dual, in thousandths of a cost unit.
    pub added: &'a [i64],
    pub k: u32,
}

/// A task's book and table keep what all do.
pub fn every_task_is_sound(task: &Task)
    ensures book { IsBook task.now.book.now }
    ensures table { IsCostTable task.now.table.now }
{
    every_book_is_sound(task.book);
    every_cost_table_is_sound(task.table);
}
