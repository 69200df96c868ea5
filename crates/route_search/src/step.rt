//! What a link adds to the weight of a row. What its activity adds was made before, so a link asks for the cost of its
//! connection alone. All weights are in thousandths of a cost unit, and no sum of them leaves 64 bits.

ghost use Rattle.std.specs.Prelude.{◌≡◌, ◌<◌, ◌≤◌, ◌*◌, ◌≤ℤ◌, pos};
ghost use Rattle.tail_book.specs.Lookup.{activities, aircraft};
ghost use Rattle.tail_book.specs.Link.{IsLink};
ghost use Rattle.tail_book.specs.CostTable.{connection_cost_in};
ghost use Rattle.tail_book.specs.Place.{IsPlaceOf};
ghost use Rattle.turn_rules.specs.inside.FreeBefore.{IsFreeBefore};
ghost use Rattle.pricing.specs.inside.WeightRange.{IsBroad};
ghost use Rattle.route_search.specs.inside.Task.{IsTask, IsAdded};
ghost use Rattle.route_search.specs.inside.ForTask.{arc_weight_for};

use crate::task::{Task, every_task_is_sound};
use tail_book::laws::costs_are_small;
use tail_book::{Book, COST_UNIT, CostTable, Place};
use turn_rules::laws::links_leave_time;

/// A link leaves an aircraft free before the activity starts: the law for one link.
pub fn links_leave_free(task: &Task, from: Place, b: u32)
    requires link { IsLink task.now.book.now task.now.k from b }
    ensures { IsFreeBefore task.now.book.now task.now.k from b }
{
    every_task_is_sound(task);
    links_leave_time();
}

// What a connection costs, in thousandths of a cost unit.
fn connection_weight(task: &Task, from: Place, b: u32) -> i64
    requires task { IsTask task.now }
    requires place { IsPlaceOf task.now.book.now from }
    requires activity { b < activities task.now.book.now }
    ensures value { result ≡ pos (1000 * connection_cost_in task.now.table.now task.now.book.now task.now.k from b) }
    ensures most { result ≤ℤ pos (1000 * task.now.table.now.band_max) }
{
    costs_are_small(task.table);
    (COST_UNIT * connection_cost(task.book, task.table, task.k, from, b)) as i64
}

// What a connection costs by a table, in cost units.
fn connection_cost(book: &Book, table: &CostTable, k: u32, from: Place, b: u32) -> u64
    requires aircraft { k < aircraft book.now }
    requires place { IsPlaceOf book.now from }
    requires activity { b < activities book.now }
    ensures value { result ≡ connection_cost_in table.now book.now k from b }
    ensures most { result ≤ table.now.band_max }
{
    turn_rules::connection_cost(book, &table.bands, k, from, b)
}

/// What an activity costs less its dual, in thousandths of a cost unit.
pub fn added_by(task: &Task, b: u32) -> i64
    requires task { IsTask task.now }
    requires activity { b < activities task.now.book.now }
    ensures { IsAdded task.now.table.now task.now.k task.now.duals.now.values b result }
{
    task.added[b as usize]
}

/// What an activity after a place adds to a weight, in thousandths of a cost unit.
pub fn arc_weight(task: &Task, from: Place, b: u32) -> i64
    requires task { IsTask task.now }
    requires place { IsPlaceOf task.now.book.now from }
    requires activity { b < activities task.now.book.now }
    ensures value { result ≡ arc_weight_for task.now from b }
    ensures range { IsBroad result }
{
    added_by(task, b) + connection_weight(task, from, b)
}
