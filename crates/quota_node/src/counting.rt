//! How often the routes of a pool use each quota, and the fees that an ascent asks for that.

ghost use Rattle.std.specs.Prelude.{◌≡◌, ◌<◌, length};
ghost use Rattle.quota_rows.specs.Fees.{AreFees};

use dual_ascent::{Ascent, Member, Side};
use quota_rows::{Fees, Quota, belongs};
use restricted_master::{Pool, number_of};
use std::alloc::Global;
use tail_book::{Book, CostTable, Memory};

// Adds a member for each connection of a route that belongs to a quota.
fn count_in(
    book: &Book,
    quota: &Quota,
    thing: u32,
    route: &[u32],
    group: u32,
    counted: &mut Vec<Member>,
) -> Result<(), Memory> {
    let n = book.activities.len();
    for i in 1..route.len() {
        let (a, b) = (route[i - 1], route[i]);
        if (a as usize) < n && (b as usize) < n && belongs(book, quota, a, b) {
            counted.push(Member { group, thing })?;
        }
    }
    Ok(())
}

// The same of all quotas.
fn count_route(
    book: &Book,
    quotas: &[Quota],
    route: &[u32],
    group: u32,
    counted: &mut Vec<Member>,
) -> Result<(), Memory> {
    for q in 0..quotas.len() {
        count_in(book, &quotas[q], number_of(q), route, group, counted)?;
    }
    Ok(())
}

/// Counts the uses of the routes of a pool from one on: quotas, in the groups of the routes, once for each time.
pub fn count_from(
    book: &Book,
    quotas: &[Quota],
    pool: &Pool,
    first: usize,
    counted: &mut Vec<Member>,
) -> Result<(), Memory> {
    for i in first..pool.count() {
        count_route(book, quotas, pool.route(i), number_of(i), counted)?;
    }
    Ok(())
}

/// The quotas as sides of an ascent, with the fees as their prices.
pub fn sides_of(alloc: Global, quotas: &[Quota], fees: &Fees) -> Result<Vec<Side>, Memory> {
    let mut sides = Vec::new(alloc);
    for q in 0..quotas.len() {
        let fee = fees.values.get(q).copied().unwrap_or(0);
        sides.push(Side::new(quotas[q].most, fee))?;
    }
    Ok(sides)
}

// Puts a fee, within its box.
fn put_fee(table: &CostTable, quotas: &[Quota], fees: &mut Fees, q: usize, value: i64)
    requires fees { AreFees table.now quotas.now fees.old.values }
    requires place { q < length fees.old.values }
    ensures fees { AreFees table.now quotas.now fees.new.values }
{
    fees.values[q] = value.clamp(0, table.box_end());
}

/// Takes the prices of an ascent's sides as fees: those of now, or those beside its best duals.
pub fn take_prices(
    table: &CostTable,
    quotas: &[Quota],
    ascent: &Ascent,
    are_best: bool,
    fees: &mut Fees,
)
    requires fees { AreFees table.now quotas.now fees.old.values }
    ensures fees { AreFees table.now quotas.now fees.new.values }
{
    let count = fees.values.len();
    for q in 0..count {
        let price = if are_best {
            ascent.best_price(q)
        } else {
            ascent.price(q)
        };
        put_fee(table, quotas, fees, q, price);
    }
}
