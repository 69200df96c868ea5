//! Pools and duals by hand, whose answers are known from outside.

ghost use Rattle.std.specs.Prelude.{◌≡◌, Any, IfOk, IsTrue};
ghost use Rattle.tail_book.specs.CostTable.{IsTableFor};
ghost use Rattle.branch_marks.specs.Pool.{Pooled};
ghost use Rattle.restricted_master.specs.Pool.{HasRoutes, IsPoolFor};

use restricted_master::*;
use small_books::{are_duals, duals_of, is_rising, two_at_once};
use std::alloc::Global;
use std::test::Fail;
use tail_book::laws::{every_book_is_sound, own_costs_are_for_book};
use tail_book::*;

// Adds a route, where its numbers are of the book and rise.
fn add(
    alloc: Global,
    book: &Book,
    table: &CostTable,
    pool: &mut Pool,
    k: u32,
    activities: &[u32],
) -> Result<Option<PoolAdd>, Memory>
    requires table { IsTableFor book.now table.now }
    requires pool { IsPoolFor table.now book.now pool.old }
    ensures { IsPoolFor table.now book.now pool.new }
{
    let mut values = Vec::new(alloc);
    values.extend_from_slice(activities)?;
    let route = Route(values);
    if k as usize >= book.tails.len() || !is_rising(&route.0, book.activities.len()) {
        return Ok(None);
    }
    Ok(Some(pool.add(book, table, k, &route)?))
}

// Whether the pool has a route of an aircraft.
fn has_route(pool: &Pool, k: u32) -> bool
    ensures { IsTrue result → Any (λ (entry : Pooled). entry.aircraft ≡ k) pool.now.entries }
{
    for i in 0..pool.count() {
        if pool.aircraft(i) == k {
            return true;
        }
    }
    false
}

fn has_routes(book: &Book, pool: &Pool) -> bool
    ensures { IsTrue result → HasRoutes book.now pool.now }
{
    every_book_is_sound(book);
    for k in 0..book.tails.len() {
        if !has_route(pool, k as u32) {
            return false;
        }
    }
    true
}

// The pool of these routes.
fn pooled(
    alloc: Global,
    book: &Book,
    table: &CostTable,
    routes: &[(u32, &[u32])],
) -> Result<Pool, Memory>
    requires { IsTableFor book.now table.now }
    ensures { IfOk result (IsPoolFor table.now book.now) }
{
    let mut pool = Pool::new(alloc)?;
    for q in 0..routes.len() {
        let (k, activities) = routes[q];
        add(alloc, book, table, &mut pool, k, activities)?;
    }
    Ok(pool)
}

// Whether a pool is settled from these duals to this sum and these duals; not where it lacks an aircraft, or the duals are
// not in the box.
fn settles_so(
    alloc: Global,
    book: &Book,
    table: &CostTable,
    pool: &Pool,
    row: &Row,
) -> Result<bool, Memory>
    requires table { IsTableFor book.now table.now }
    requires pool { IsPoolFor table.now book.now pool.now }
{
    every_book_is_sound(book);
    let &(_, from, sum, to) = row;
    let mut duals = duals_of(alloc, from)?;
    if !has_routes(book, pool) || !are_duals(book, table, &duals) {
        return Ok(false);
    }
    let settled = settle(alloc, pool, book, table, &mut duals)?;
    Ok(settled == sum && duals.values.as_slice() == to)
}

// The same of the pool of the routes.
fn pool_settles_so(alloc: Global, book: &Book, table: &CostTable, row: &Row) -> Result<bool, Memory>
    requires { IsTableFor book.now table.now }
{
    let pool = pooled(alloc, book, table, row.0)?;
    settles_so(alloc, book, table, &pool, row)
}

// The same by the book's own costs.
fn book_settles_so(alloc: Global, book: &Book, row: &Row) -> Result<bool, Memory> {
    own_costs_are_for_book();
    let table = CostTable::of(alloc, book)?;
    pool_settles_so(alloc, book, &table, row)
}

fn is_right(alloc: Global, row: &Row) -> Result<bool, Fail> {
    let book = two_at_once(alloc)?;
    Ok(book_settles_so(alloc, &book, row)?)
}

// Routes of aircraft, duals, and the sum and the duals to which they are settled.
type Row = (
    &'static [(u32, &'static [u32])],
    &'static [i64],
    i128,
    &'static [i64],
);

// The box's end.
const END: i64 = 4_000_001_000;

const EMPTY: &[(u32, &[u32])] = &[(0, &[]), (1, &[])];

const ALL: &[(u32, &[u32])] = &[
    (0, &[]),
    (1, &[]),
    (0, &[0]),
    (1, &[0]),
    (0, &[1]),
    (1, &[1]),
];

// With empty routes alone each dual runs to the box's end. With single flights too, duals that are settled stay, and
// zero duals come to the least sum that no plan undercuts. An activity that one aircraft has alone is worth the box's end.
const ROWS: &[Row] = &[
    (EMPTY, &[0, 0], 8_000_002_000, &[END, END]),
    (EMPTY, &[-END, END], 8_000_002_000, &[END, END]),
    (ALL, &[120_000, 180_000], 240_000, &[120_000, 180_000]),
    (ALL, &[0, 0], 180_000, &[60_000, 120_000]),
];

fn rows() -> &'static [Row] {
    ROWS
}

#[test]
fn pools_by_hand(rt: HostRuntime) -> Result<(), Fail> {
    for (number, row) in rows().iter().enumerate() {
        assert!(rt; is_right(rt.alloc(), row)?, "row {number}");
    }
    Ok(())
}
