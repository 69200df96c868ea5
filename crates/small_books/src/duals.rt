//! Duals as tests write them, and whether they are what a search asks for: one for each activity, each within the
//! table's box. A yes is promised to be right, a no promises nothing.

ghost use Rattle.std.specs.Prelude.{IsTrue, All};
ghost use Rattle.tail_book.specs.CostTable.{IsInBox};
ghost use Rattle.branch_marks.specs.Settled.{AreDuals};

use std::alloc::Global;
use tail_book::*;

/// Duals of these values.
pub fn duals_of(alloc: Global, duals: &[i64]) -> Result<Duals, Memory> {
    let mut values = Vec::new(alloc);
    values.extend_from_slice(duals)?;
    Ok(Duals { values })
}

fn is_in_box(table: &CostTable, dual: i64) -> bool
    ensures { IsTrue result → IsInBox table.now dual }
{
    let end = table.box_end();
    -end <= dual && dual <= end
}

fn are_in_box(table: &CostTable, duals: &[i64]) -> bool
    ensures { IsTrue result → All (IsInBox table.now) duals.now }
{
    for a in 0..duals.len() {
        if !is_in_box(table, duals[a]) {
            return false;
        }
    }
    true
}

/// Whether these are a dual for each activity, each in the table's box.
pub fn are_duals(book: &Book, table: &CostTable, duals: &Duals) -> bool
    ensures { IsTrue result → AreDuals table.now book.now duals.now.values }
{
    duals.values.len() == book.activities.len() && are_in_box(table, &duals.values)
}
