//! What routes of a pool weigh under duals, and the least weight of an aircraft.
//!
//! The cost of a route is kept with it, so a weight is a walk over its duals alone. The least weight of one aircraft is
//! a walk over the aircraft of all routes in the pool, of which only its own are weighed.

ghost use Rattle.std.specs.Prelude.{◌≡◌, ◌<◌, ◌-ℤ◌, ◌^◌, pos, All, length};
ghost use Rattle.tail_book.specs.Lookup.{aircraft};
ghost use Rattle.tail_book.specs.CostTable.{IsTableFor};
ghost use Rattle.tail_book.specs.Ranges.{IsWithin};
ghost use Rattle.branch_marks.specs.Weights.{duals_on};
ghost use Rattle.branch_marks.specs.Pool.{least_in};
ghost use Rattle.branch_marks.specs.Settled.{AreDuals};
ghost use Rattle.restricted_master.specs.Pool.{entry_at, IsPoolFor};
ghost use Rattle.restricted_master.specs.inside.Choices.{IsSmall};
ghost use Rattle.restricted_master.specs.inside.Least.{entry_weight, least_with_entry};

use crate::choice::lesser;
use crate::{Pool, laws};
use tail_book::laws::{every_cost_table_is_sound, rising_routes_are_below};
use tail_book::{Book, COST_UNIT, CostTable, Duals};

// The duals of these activities, all together.
fn duals_on(route: &[u32], duals: &[i64]) -> i128
    requires { All (λ a. a < length duals.now) route.now }
    ensures value { result ≡ duals_on duals.now route.now }
    ensures range { IsWithin (pos 0 -ℤ pos (2 ^ 126)) (pos (2 ^ 126)) result }
{
    let mut sum = 0;
    for q in 0..route.len() {
        sum += duals[route[q] as usize] as i128;
    }
    sum
}

/// What a route of the pool weighs, in thousandths of a cost unit.
pub fn weight_of(book: &Book, table: &CostTable, pool: &Pool, duals: &[i64], i: usize) -> i64
    requires table { IsTableFor book.now table.now }
    requires pool { IsPoolFor table.now book.now pool.now }
    requires duals { AreDuals table.now book.now duals.now }
    requires route { i < length pool.now.entries }
    ensures value { result ≡ entry_weight table.now book.now duals.now (entry_at pool.now i) }
    ensures small { IsSmall result }
{
    rising_routes_are_below();
    laws::entries_are_small();
    every_cost_table_is_sound(table);
    let cost = COST_UNIT as i128 * pool.cost(i) as i128;
    (cost - duals_on(pool.route(i), duals)) as i64
}

// The least so far with a route, where it is of the aircraft.
fn with_route(
    book: &Book,
    table: &CostTable,
    pool: &Pool,
    duals: &[i64],
    k: u32,
    i: usize,
    least: Option<i64>,
) -> Option<i64>
    requires table { IsTableFor book.now table.now }
    requires pool { IsPoolFor table.now book.now pool.now }
    requires duals { AreDuals table.now book.now duals.now }
    requires route { i < length pool.now.entries }
    ensures { result ≡ least_with_entry table.now book.now duals.now k (entry_at pool.now i) least }
{
    if k != pool.aircraft(i) {
        return least;
    }
    let weight = weight_of(book, table, pool, duals, i);
    match least {
        None => Some(weight),
        Some(other) => Some(lesser(weight, other)),
    }
}

impl Pool {
    /// The least weight of an aircraft's routes in the pool, in thousandths of a cost unit, and none where it has no
    /// route of it.
    pub fn least(&self, book: &Book, table: &CostTable, duals: &Duals, k: u32) -> Option<i64>
        requires table { IsTableFor book.now table.now }
        requires pool { IsPoolFor table.now book.now self.now }
        requires duals { AreDuals table.now book.now duals.now.values }
        requires aircraft { k < aircraft book.now }
        ensures { result ≡ least_in table.now book.now duals.now.values k self.now.entries }
    {
        let _ = &self.entries;
        let mut least = None;
        for behind in 0..self.count() {
            let i = self.count() - 1 - behind;
            least = with_route(book, table, self, &duals.values, k, i, least);
        }
        least
    }
}
