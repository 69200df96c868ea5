//! Settling: one dual or one fee at a time is moved to its best number, until no move gains a cost unit.
//!
//! This is coordinate ascent of the Lagrangian sum with fees over a pool. Each move gains at least a cost unit, and the sum is bounded
//! over the boxes, so it ends. All memory is asked for before the first dual moves. The best number of one dual or fee is found
//! exactly (`best_rise`).

ghost use Rattle.std.specs.Prelude.{◌≡◌, ◌<◌, ◌≤◌, ◌+◌, ◌≤ℤ◌, IfOk, OnErr, length};
ghost use Rattle.tail_book.specs.CostTable.{costs_of};
ghost use Rattle.tail_book.specs.Lookup.{activities};
ghost use Rattle.branch_marks.specs.Settled.{AreDuals};
ghost use Rattle.restricted_master.specs.Pool.{HasRoutes, IsPoolFor};
ghost use Rattle.quota_rows.specs.declared.quota.TheConstants.{QUOTA_LIMIT};
ghost use Rattle.quota_rows.specs.Fees.{AreFees};
ghost use Rattle.fee_master.specs.PoolSum.{SumIsNoLess, fee_sum_in};
ghost use Rattle.fee_master.specs.SettledFees.{IsSettledOverPool};
ghost use Rattle.fee_master.specs.inside.Settling.{AreAllSettled, IsClear, IsFixed, IsPriced, IsSettledAt, Looks, sum_for};

use crate::fee_weights::weigh;
use crate::fixed::Fixed;
use crate::laws;
use crate::moving::{look_at_dual, look_at_fee};
use crate::quota_uses::uses;
use crate::sums::sum_of;
use quota_rows::{Fees, Quota};
use restricted_master::{Pool, RouteLists};
use std::alloc::Global;
use tail_book::laws::{every_book_is_sound, every_cost_table_is_sound};
use tail_book::{Book, CostTable, Duals, Memory};

// Looks at the dual of a place, or at a fee behind all duals.
fn look(
    fixed: &Fixed,
    duals: &mut [i64],
    fees: &mut [i64],
    weights: &mut [i64],
    times: &mut [u32],
    j: usize,
) -> bool
    requires fixed { IsFixed fixed.now }
    requires priced { IsPriced fixed.now duals.old fees.old weights.old }
    requires clear { IsClear fixed.now times.old }
    requires place { j < activities fixed.now.book.now + length fixed.now.quotas.now }
    ensures priced { IsPriced fixed.now duals.new fees.new weights.new }
    ensures clear { IsClear fixed.now times.new }
    ensures looks { Looks fixed.now (IsSettledAt fixed.now duals.new fees.new j) duals.old fees.old duals.new fees.new result }
{
    let book = fixed.book;
    every_book_is_sound(book);
    let n = book.activities.len();
    if j < n {
        look_at_dual(fixed, duals, fees, weights, times, j as u32)
    } else {
        look_at_fee(fixed, duals, fees, weights, j - n)
    }
}

// Looks at all duals and then at all fees, and answers whether one moved.
fn sweep(
    fixed: &Fixed,
    duals: &mut [i64],
    fees: &mut [i64],
    weights: &mut [i64],
    times: &mut [u32],
) -> bool
    requires fixed { IsFixed fixed.now }
    requires priced { IsPriced fixed.now duals.old fees.old weights.old }
    requires clear { IsClear fixed.now times.old }
    ensures priced { IsPriced fixed.now duals.new fees.new weights.new }
    ensures clear { IsClear fixed.now times.new }
    ensures looks { Looks fixed.now (AreAllSettled fixed.now duals.new fees.new) duals.old fees.old duals.new fees.new result }
{
    let (book, quotas) = (fixed.book, fixed.quotas);
    every_book_is_sound(book);
    let mut moved = false;
    for j in 0..book.activities.len() + quotas.len() {
        if look(fixed, duals, fees, weights, times, j) {
            moved = true;
        }
    }
    moved
}

// Sweeps until nothing moves, and answers the sum.
fn climb(
    fixed: &Fixed,
    duals: &mut [i64],
    fees: &mut [i64],
    weights: &mut [i64],
    times: &mut [u32],
) -> i128
    requires fixed { IsFixed fixed.now }
    requires priced { IsPriced fixed.now duals.old fees.old weights.old }
    requires clear { IsClear fixed.now times.old }
    ensures settled { IsSettledOverPool fixed.now.table.now fixed.now.book.now fixed.now.quotas.now fixed.now.pool.now duals.new fees.new }
    ensures sum { result ≡ sum_for fixed.now duals.new fees.new }
    ensures no_less { sum_for fixed.now duals.old fees.old ≤ℤ sum_for fixed.now duals.new fees.new }
{
    let (book, table) = (fixed.book, fixed.table);
    every_book_is_sound(book);
    every_cost_table_is_sound(table);
    laws::prices_are_fair();
    let mut moved = true;
    while moved {
        moved = sweep(fixed, duals, fees, weights, times);
    }
    sum_of(fixed, duals, fees, weights, times)
}

// Climbs with the uses of each route.
fn climb_counted(
    alloc: Global,
    fixed: &Fixed,
    duals: &mut [i64],
    fees: &mut [i64],
) -> Result<i128, Memory>
    requires fixed { IsFixed fixed.now }
    requires duals { AreDuals fixed.now.table.now fixed.now.book.now duals.old }
    requires fees { AreFees fixed.now.table.now fixed.now.quotas.now fees.old }
    ensures settled { IfOk result (λ _. IsSettledOverPool fixed.now.table.now fixed.now.book.now fixed.now.quotas.now fixed.now.pool.now duals.new fees.new) }
    ensures sum { IfOk result (λ sum. sum ≡ sum_for fixed.now duals.new fees.new) }
    ensures no_less { IfOk result (λ _. sum_for fixed.now duals.old fees.old ≤ℤ sum_for fixed.now duals.new fees.new) }
    ensures memory_duals { OnErr result (duals.new ≡ duals.old) }
    ensures memory_fees { OnErr result (fees.new ≡ fees.old) }
{
    let pool = fixed.pool;
    let mut times = vec![in alloc; 0u32; pool.count()]?;
    let mut weights = weigh(alloc, fixed, duals, fees)?;
    Ok(climb(fixed, duals, fees, &mut weights, &mut times))
}

/// Settles duals and fees over a pool, and answers their Lagrangian sum with fees, in thousandths of a cost unit.
pub fn settle(
    alloc: Global,
    pool: &Pool,
    book: &Book,
    table: &CostTable,
    quotas: &[Quota],
    duals: &mut Duals,
    fees: &mut Fees,
) -> Result<i128, Memory>
    requires table { table.now ≡ costs_of book.now }
    requires pool { IsPoolFor table.now book.now pool.now }
    requires routes { HasRoutes book.now pool.now }
    requires few { length quotas.now ≤ QUOTA_LIMIT }
    requires duals { AreDuals table.now book.now duals.old.values }
    requires fees { AreFees table.now quotas.now fees.old.values }
    ensures settled { IfOk result (λ _. IsSettledOverPool table.now book.now quotas.now pool.now duals.new.values fees.new.values) }
    ensures sum { IfOk result (λ sum. sum ≡ fee_sum_in table.now book.now quotas.now pool.now duals.new.values fees.new.values) }
    ensures no_less { SumIsNoLess table.now book.now quotas.now pool.now duals.old.values fees.old.values duals.new.values fees.new.values }
    ensures duals { AreDuals table.now book.now duals.new.values }
    ensures fees { AreFees table.now quotas.now fees.new.values }
    ensures memory_duals { OnErr result (duals.new ≡ duals.old) }
    ensures memory_fees { OnErr result (fees.new ≡ fees.old) }
{
    let lists = RouteLists::of(alloc, pool, book, table)?;
    let uses = uses(alloc, book, table, pool, quotas)?;
    let fixed = Fixed {
        book,
        table,
        pool,
        lists: &lists,
        quotas,
        uses: &uses,
    };
    climb_counted(alloc, &fixed, &mut duals.values, &mut fees.values)
}
