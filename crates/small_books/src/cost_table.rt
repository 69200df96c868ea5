//! The costs of a small book: the table of its own costs, with the promise that it is for this book.

ghost use Rattle.std.specs.Prelude.{IfOk};
ghost use Rattle.tail_book.specs.CostTable.{IsTableFor};

use std::alloc::Global;
use tail_book::laws::own_costs_are_for_book;
use tail_book::*;

/// The book's own costs.
pub fn costs(alloc: Global, book: &Book) -> Result<CostTable, Memory>
    ensures { IfOk result (IsTableFor book.now) }
{
    own_costs_are_for_book();
    CostTable::of(alloc, book)
}
