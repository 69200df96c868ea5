//! What activities are worth to an aircraft, as duals.

ghost use Rattle.std.specs.Prelude.{◌≡◌, ◌++◌, ◌∷◌, [], length, IfOk, OnOk};
ghost use Rattle.tail_book.specs.Lookup.{activities};
ghost use Rattle.branch_marks.specs.Settled.{AreDuals};

use std::alloc::Global;
use tail_book::{Book, CostTable, Duals, Memory};

// Puts a dual at the end of a list.
fn push_dual(duals: &mut Vec<i64>, dual: &i64) -> Result<(), Memory>
    ensures { OnOk result (duals.new.items ≡ duals.old.items ++ dual.now ∷ []) }
{
    duals.push(*dual)?;
    Ok(())
}

/// These numbers, one for each activity and in thousandths of a cost unit, as duals: each the nearest in the table's box.
pub fn boxed(alloc: Global, book: &Book, table: &CostTable, worths: &[i64]) -> Result<Duals, Memory>
    requires { length worths.now ≡ activities book.now }
    ensures { IfOk result (λ duals. AreDuals table.now book.now duals.values) }
{
    let mut duals = Vec::new(alloc);
    for a in 0..worths.len() {
        let dual = table.boxed(worths[a]);
        push_dual(&mut duals, &dual)?;
    }
    Ok(Duals { values: duals })
}
