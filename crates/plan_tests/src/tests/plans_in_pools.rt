//! Plans from a pool by hand: two flights that overlap, and two aircraft of which one pays twice as much a minute.

ghost use Rattle.tail_book.specs.CostTable.{IsTableFor};

use pool_plans::*;
use restricted_master::Pool;
use small_books::{duals_of, is_rising, two_at_once};
use std::alloc::Global;
use std::test::Fail;
use tail_book::laws::{every_book_is_sound, own_costs_are_for_book};
use tail_book::*;

// Adds a route of one flight, where it is of the book.
fn add(
    alloc: Global,
    book: &Book,
    table: &CostTable,
    pool: &mut Pool,
    k: u32,
    a: u32,
) -> Result<(), Memory>
    requires { IsTableFor book.now table.now }
{
    every_book_is_sound(book);
    let route = Route(vec![in alloc; a]?);
    if (k as usize) < book.tails.len() && is_rising(&route.0, book.activities.len()) {
        let _ = pool.add(book, table, k, &route)?;
    }
    Ok(())
}

// The flights of aircraft that are in a pool, duals, a cost, how many turns a search may take, and what the plan costs that
// it finds below that cost.
type Row = (&'static [(u32, u32)], &'static [i64], u64, u64, Option<u64>);

fn has_cost(found: Option<JudgedPlan>, cost: Option<u64>) -> bool {
    match found {
        Some(plan) => Some(plan.cost) == cost,
        None => cost.is_none(),
    }
}

// Whether this is found in a pool, by these duals.
fn finds(
    alloc: Global,
    book: &Book,
    table: &CostTable,
    pool: &Pool,
    row: &Row,
) -> Result<bool, Memory>
    requires { IsTableFor book.now table.now }
{
    let &(_, duals, target, turns, cost) = row;
    let duals = duals_of(alloc, duals)?;
    let found = find_plan(alloc, book, table, pool, &duals, target, turns)?;
    Ok(has_cost(found, cost))
}

// The same in the pool of the flights.
fn finds_in_pool(alloc: Global, book: &Book, table: &CostTable, row: &Row) -> Result<bool, Memory>
    requires { IsTableFor book.now table.now }
{
    let mut pool = Pool::new(alloc)?;
    for &(k, a) in row.0 {
        add(alloc, book, table, &mut pool, k, a)?;
    }
    finds(alloc, book, table, &pool, row)
}

// The same by the book's own costs.
fn finds_in_book(alloc: Global, book: &Book, row: &Row) -> Result<bool, Memory> {
    own_costs_are_for_book();
    let table = CostTable::of(alloc, book)?;
    finds_in_pool(alloc, book, &table, row)
}

fn is_right(alloc: Global, row: &Row) -> Result<bool, Fail> {
    let book = two_at_once(alloc)?;
    Ok(finds_in_book(alloc, &book, row)?)
}

// Each flight for each aircraft.
const EACH: &[(u32, u32)] = &[(0, 0), (0, 1), (1, 0), (1, 1)];

const ROWS: &[Row] = &[
    // The cheap aircraft takes the long flight, for 240; the other way round is 300, which does not undercut 300. Below 240
    // there is nothing.
    (EACH, &[120_000, 180_000], 300, 100, Some(240)),
    (EACH, &[120_000, 180_000], 241, 100, Some(240)),
    (EACH, &[120_000, 180_000], 240, 100, None),
    (EACH, &[0, 0], 241, 100, Some(240)),
    // A search that may take no turn finds nothing.
    (&[], &[0, 0], 1_000, 0, None),
];

fn rows() -> &'static [Row] {
    ROWS
}

#[test]
fn plans_that_undercut_a_cost_are_found(rt: HostRuntime) -> Result<(), Fail> {
    for (number, row) in rows().iter().enumerate() {
        assert!(rt; is_right(rt.alloc(), row)?, "row {number}");
    }
    Ok(())
}
