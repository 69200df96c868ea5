//! The first duals of the root: for each activity the least that an aircraft which may fly it pays for it. Under them no flight
//! by itself weighs less than nothing, so what the first routes leave out is told by connections and fixed costs alone.

ghost use Rattle.std.specs.Prelude.{◌≡◌, ◌<◌, ◌++◌, ◌∷◌, [], IfOk, OnOk};
ghost use Rattle.tail_book.specs.Lookup.{activities};
ghost use Rattle.tail_book.specs.CostTable.{IsInBox, IsTableFor};
ghost use Rattle.branch_marks.specs.Settled.{AreDuals};
ghost use Rattle.branch_marks.specs.inside.MarkTables.{AreMarksOf};

use branch_marks::Marks;
use std::alloc::Global;
use tail_book::laws::every_book_is_sound;
use tail_book::{Book, COST_UNIT, CostTable, Duals, Memory};

// The least that an aircraft alive at an activity pays for it, in cost units; 0 where none is alive.
fn least_cost(book: &Book, table: &CostTable, marks: &Marks, a: u32) -> u64
    requires table { IsTableFor book.now table.now }
    requires marks { AreMarksOf book.now marks.now }
    requires activity { a < activities book.now }
{
    every_book_is_sound(book);
    let mut least = None;
    for k in 0..book.tails.len() as u32 {
        if marks.alive(book, k, a) {
            let cost = table.activity_cost(k, a);
            least = match least {
                Some(other) if other <= cost => Some(other),
                _ => Some(cost),
            };
        }
    }
    least.unwrap_or(0)
}

// A number that is not negative, as a dual of the table's box.
fn within_box(table: &CostTable, cost: u64) -> i64
    ensures { IsInBox table.now result }
{
    let end = table.box_end();
    let dual = cost.saturating_mul(COST_UNIT);
    if dual < end as u64 { dual as i64 } else { end }
}

/// Puts a dual, in thousandths of a cost unit, at the end of a list.
pub fn push_dual(duals: &mut Vec<i64>, dual: &i64) -> Result<(), Memory>
    ensures { OnOk result (duals.new.items ≡ duals.old.items ++ dual.now ∷ []) }
{
    duals.push(*dual)?;
    Ok(())
}

/// The first duals at marks.
pub fn first_duals(
    alloc: Global,
    book: &Book,
    table: &CostTable,
    marks: &Marks,
) -> Result<Duals, Memory>
    requires table { IsTableFor book.now table.now }
    requires marks { AreMarksOf book.now marks.now }
    ensures { IfOk result (λ duals. AreDuals table.now book.now duals.values) }
{
    every_book_is_sound(book);
    let mut values = Vec::new(alloc);
    for a in 0..book.activities.len() as u32 {
        let dual = within_box(table, least_cost(book, table, marks, a));
        push_dual(&mut values, &dual)?;
    }
    Ok(Duals { values })
}
