//! Marks of those facts that are of a book: the others are passed over, so any list of facts gives marks of the book.

ghost use Rattle.std.specs.Prelude.{IfOk};
ghost use Rattle.branch_marks.specs.inside.MarkTables.{AreMarksOf};

use branch_marks::{Fact, Marks};
use std::alloc::Global;
use tail_book::*;

/// Marks with those of these facts that are of the book.
pub fn marks(alloc: Global, book: &Book, facts: &[Fact]) -> Result<Marks, Memory>
    ensures { IfOk result (AreMarksOf book.now) }
{
    let mut marks = Marks::new(alloc, book)?;
    for fact in facts {
        if fact.is_of(book) {
            marks.add(book, *fact)?;
        }
    }
    Ok(marks)
}
