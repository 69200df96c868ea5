//! What the enumeration asks of the book once.
//!
//! What an activity costs an aircraft, and whether it may fly it, depends on no assignment. Places and counters do, and
//! are looked at on the way.

ghost use Rattle.std.specs.Prelude.{IfOk};
ghost use Rattle.plan_enumeration.specs.inside.BookTables.{AreTablesOf};

use std::alloc::Global;
use tail_book::{Book, CostTable, Memory};
use turn_rules::PermissionTable;

/// What activities and connections cost, and who may fly what.
#[derive(Drop)]
pub struct BookTables {
    pub costs: CostTable,
    pub permissions: PermissionTable,
}

/// The tables of a book.
pub fn tables_of(alloc: Global, book: &Book) -> Result<BookTables, Memory>
    ensures { IfOk result (AreTablesOf book.now) }
{
    let costs = CostTable::of(alloc, book)?;
    let permissions = PermissionTable::of(alloc, book)?;
    Ok(BookTables { costs, permissions })
}
