//! The least plan of a book: a search without a limit, of which nobody is told. So the outcome is never a bound, and
//! what ends the search early can only be a want of memory.

ghost use Rattle.std.specs.Prelude.{IfOk};
ghost use Rattle.tail_book.specs.Truth.{IsTrueOutcome};
ghost use Rattle.branch_tree.specs.Decided.{IsDecided};

use crate::{Limit, search};
use branch_marks::NoLog;
use std::alloc::Global;
use tail_book::laws::{every_book_is_sound, own_costs_are_for_book, own_costs_keep_outcomes};
use tail_book::{Book, CostTable, Memory, Outcome};

/// A plan of the book that is legal and costs no more than any other legal one, or that none is legal.
pub fn least_plan(alloc: Global, book: &Book) -> Result<Outcome, Memory>
    ensures truth { IfOk result (IsTrueOutcome book.now) }
    ensures decided { IfOk result IsDecided }
{
    every_book_is_sound(book);
    own_costs_are_for_book();
    own_costs_keep_outcomes();
    let table = CostTable::of(alloc, book)?;
    match search(alloc, book, &table, Limit::Free, &mut NoLog) {
        Ok(outcome) => Ok(outcome),
        Err(_) => Err(Memory),
    }
}
