//! What the routes of a pool weigh with fees: each is weighed once, and then follows what rises.

ghost use Rattle.std.specs.Prelude.{◌≡◌, ◌<◌, ◌≤◌, ◌-ℤ◌, ◌^◌, pos, All, IfOk, length};
ghost use Rattle.tail_book.specs.Ranges.{IsWithin};
ghost use Rattle.branch_marks.specs.Settled.{AreDuals};
ghost use Rattle.branch_marks.specs.Weights.{duals_on};
ghost use Rattle.quota_rows.specs.Fees.{AreFees};
ghost use Rattle.fee_master.specs.PoolSum.{fee_weight_at};
ghost use Rattle.fee_master.specs.inside.Lines.{IsFairRise};
ghost use Rattle.fee_master.specs.inside.Settling.{IsFixed, IsPriced};
ghost use Rattle.fee_master.specs.inside.Uses.{paid, times_at};

use crate::fixed::Fixed;
use crate::laws;
use crate::quota_uses::{Counts, counts_at};
use crate::sums::product;
use std::alloc::Global;
use tail_book::laws::{every_book_is_sound, every_cost_table_is_sound, rising_routes_are_below};
use tail_book::{COST_UNIT, Memory};

// The duals of these activities, all together.
fn duals_on(route: &[u32], duals: &[i64]) -> i128
    requires { All (λ a. a < length duals.now) route.now }
    ensures value { result ≡ duals_on duals.now route.now }
    ensures range { IsWithin (pos 0 -ℤ pos (2 ^ 126)) (pos (2 ^ 126)) result }
{
    let mut sum = 0;
    for q in 0..route.len() {
        sum += duals[route[q] as usize] as i128;
    }
    sum
}

// One count of a list, 0 past its end.
fn count_at(counts: &[u32], i: usize) -> u32
    ensures { result ≡ times_at counts.now i }
{
    if i < counts.len() { counts[i] } else { 0 }
}

// What a route pays: each fee as often as it uses the quota.
fn paid(uses: &[Counts], fees: &[i64], i: usize) -> i128
    requires one_each { length fees.now ≡ length uses.now }
    requires few { length uses.now ≤ 50 }
    requires fair { All IsFairRise fees.now }
    ensures value { result ≡ paid uses.now fees.now i }
    ensures range { IsWithin (pos 0 -ℤ pos (2 ^ 120)) (pos (2 ^ 120)) result }
{
    let mut sum = 0;
    for q in 0..uses.len() {
        sum += product(count_at(counts_at(uses, q), i) as u64, fees[q]);
    }
    sum
}

// What a route weighs.
fn weight_of(fixed: &Fixed, duals: &[i64], fees: &[i64], i: usize) -> i64
    requires fixed { IsFixed fixed.now }
    requires duals { AreDuals fixed.now.table.now fixed.now.book.now duals.now }
    requires fees { AreFees fixed.now.table.now fixed.now.quotas.now fees.now }
    requires route { i < length fixed.now.pool.now.entries }
    ensures { result ≡ fee_weight_at fixed.now.table.now fixed.now.book.now fixed.now.quotas.now fixed.now.pool.now duals.now fees.now i }
{
    every_book_is_sound(fixed.book);
    every_cost_table_is_sound(fixed.table);
    rising_routes_are_below();
    laws::prices_are_fair();
    let pool = fixed.pool;
    let cost = COST_UNIT as i128 * pool.cost(i) as i128;
    let weight = cost - duals_on(pool.route(i), duals);
    (weight + paid(fixed.uses, fees, i)) as i64
}

/// The weights of all routes.
pub fn weigh(alloc: Global, fixed: &Fixed, duals: &[i64], fees: &[i64]) -> Result<Vec<i64>, Memory>
    requires fixed { IsFixed fixed.now }
    requires duals { AreDuals fixed.now.table.now fixed.now.book.now duals.now }
    requires fees { AreFees fixed.now.table.now fixed.now.quotas.now fees.now }
    ensures { IfOk result (λ weights. IsPriced fixed.now duals.now fees.now weights.items) }
{
    let pool = fixed.pool;
    let mut weights = Vec::with_capacity(alloc, pool.count())?;
    for i in 0..pool.count() {
        weights.push(weight_of(fixed, duals, fees, i))?;
    }
    Ok(weights)
}
