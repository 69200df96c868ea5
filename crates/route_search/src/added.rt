//! What each activity costs an aircraft less its dual, made once for a search by one pass over the activities. No link
//! changes it, so what a link adds to a weight is this and the cost of its connection.

ghost use Rattle.std.specs.Prelude.{◌≡◌, ◌<◌, length};
ghost use Rattle.tail_book.specs.Lookup.{activities, aircraft};
ghost use Rattle.tail_book.specs.CostTable.{IsTableFor};
ghost use Rattle.branch_marks.specs.Settled.{AreDuals};
ghost use Rattle.route_search.specs.inside.Task.{AreAdded, IsAdded};

use tail_book::laws::{costs_are_small, every_book_is_sound};
use tail_book::{Book, COST_UNIT, CostTable, Duals};

// What an activity costs an aircraft less its dual, in thousandths of a cost unit.
fn added_by(book: &Book, table: &CostTable, duals: &Duals, k: u32, b: u32) -> i64
    requires table { IsTableFor book.now table.now }
    requires duals { AreDuals table.now book.now duals.now.values }
    requires aircraft { k < aircraft book.now }
    requires activity { b < activities book.now }
    ensures { IsAdded table.now k duals.now.values b result }
{
    costs_are_small(table);
    (COST_UNIT * table.activity_cost(k, b)) as i64 - duals.values[b as usize]
}

/// Writes what each activity costs an aircraft less its dual, in thousandths of a cost unit.
pub fn add_up(book: &Book, table: &CostTable, duals: &Duals, k: u32, added: &mut [i64])
    requires table { IsTableFor book.now table.now }
    requires duals { AreDuals table.now book.now duals.now.values }
    requires aircraft { k < aircraft book.now }
    requires one_each { length added.old ≡ activities book.now }
    ensures { AreAdded table.now book.now k duals.now.values added.new }
{
    every_book_is_sound(book);
    for b in 0..book.activities.len() as u32 {
        added[b as usize] = added_by(book, table, duals, k, b);
    }
}
