//! Plans from a pool, judged before they are told.
//!
//! The search only sees who flies what, and duals only suggest where to look. So what it puts together is audited, and
//! it is the audit that makes a plan legal and tells its cost. A cover that leaves activities out is no plan, and is
//! told unjudged.

ghost use Rattle.std.specs.Prelude.{Some, IfOk, IfSome};
ghost use Rattle.tail_book.specs.CostTable.{IsTableFor};
ghost use Rattle.tail_book.specs.Truth.{IsPlanIn};

use crate::candidates::Candidates;
use crate::partition::Partition;
use plan_audit::audit_plan;
use restricted_master::Pool;
use std::alloc::Global;
use tail_book::{Book, CostTable, Duals, Memory, Plan, Route};

/// A legal plan and its cost, in cost units.
#[derive(Drop)]
pub struct JudgedPlan {
    pub plan: Plan,
    pub cost: u64,
}

// What an aircraft flies by the first of these routes that is its own; nothing where none is.
fn flown_by(alloc: Global, pool: &Pool, numbers: &[usize], k: usize) -> Result<Route, Memory> {
    for q in 0..numbers.len() {
        let i = numbers[q];
        if i < pool.count() && pool.aircraft(i) as usize == k {
            return Ok(Route(Vec::from_slice(alloc, pool.route(i))?));
        }
    }
    Ok(Route(Vec::new(alloc)))
}

// The routes of aircraft among these; one without a route flies nothing.
fn routes_of(
    alloc: Global,
    pool: &Pool,
    numbers: &[usize],
    aircraft: usize,
) -> Result<Vec<Route>, Memory> {
    let mut routes = Vec::with_capacity(alloc, aircraft)?;
    for k in 0..aircraft {
        routes.push(flown_by(alloc, pool, numbers, k)?)?;
    }
    Ok(routes)
}

// What is searched among the routes of a pool, where activities may be left out.
fn partition_of(
    alloc: Global,
    pool: &Pool,
    duals: &[i64],
    aircraft: usize,
    left_out: &[bool],
    target: u64,
) -> Result<Partition, Memory> {
    let candidates = Candidates::of(alloc, pool, duals, aircraft, target)?;
    let mut partition = Partition::new(alloc, pool, candidates, duals.len(), aircraft)?;
    partition.leave_out(left_out);
    Ok(partition)
}

// The routes that a search finds.
fn cover_in(
    alloc: Global,
    pool: &Pool,
    partition: &mut Partition,
    aircraft: usize,
    turns: u64,
) -> Result<Option<Vec<Route>>, Memory> {
    let Some(numbers) = partition.search(alloc, turns)? else {
        return Ok(None);
    };
    Ok(Some(routes_of(alloc, pool, &numbers, aircraft)?))
}

/// Looks among the routes of a pool for one of each of so many aircraft, so that each activity stands in one of them
/// but those that may be left out. Together they undercut a cost, in cost units, as far as the duals tell. It takes so
/// many turns at most.
pub fn find_cover(
    alloc: Global,
    pool: &Pool,
    duals: &[i64],
    aircraft: usize,
    left_out: &[bool],
    target: u64,
    turns: u64,
) -> Result<Option<Vec<Route>>, Memory> {
    let mut partition = partition_of(alloc, pool, duals, aircraft, left_out, target)?;
    cover_in(alloc, pool, &mut partition, aircraft, turns)
}

/// Looks among the routes of a pool for a plan that undercuts a cost, in cost units, for so many turns. The duals say
/// which routes are light. What it finds is legal and has the cost that it says; that there is nothing to find is not
/// promised.
pub fn find_plan(
    alloc: Global,
    book: &Book,
    table: &CostTable,
    pool: &Pool,
    duals: &Duals,
    target: u64,
    turns: u64,
) -> Result<Option<JudgedPlan>, Memory>
    requires table { IsTableFor book.now table.now }
    ensures { IfOk result (λ found. IfSome found (λ plan. IsPlanIn table.now book.now plan.cost plan.plan)) }
{
    let m = book.tails.len();
    let found = find_cover(alloc, pool, &duals.values, m, &[], target, turns)?;
    match found {
        Some(routes) => judge(alloc, book, table, Plan(routes)),
        None => Ok(None),
    }
}

// The plan with its cost, where it is legal.
fn judge(
    alloc: Global,
    book: &Book,
    table: &CostTable,
    plan: Plan,
) -> Result<Option<JudgedPlan>, Memory>
    requires table { IsTableFor book.now table.now }
    ensures { IfOk result (λ found. IfSome found (λ plan. IsPlanIn table.now book.now plan.cost plan.plan)) }
{
    let cost = audit_plan(alloc, book, table, &plan)?;
    Ok(cost.map(|cost| JudgedPlan { plan, cost }))
}
