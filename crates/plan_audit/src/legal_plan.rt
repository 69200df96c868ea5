//! Whether a plan is legal: each route is, and each activity is flown exactly once.
//!
//! A plan of numbers may have any numbers, and each route is judged by what steps read of the book, made once. Activities
//! are counted up to 2, which tells once from more often. It takes a pass over the plan for each of both, a byte for
//! each activity, that table, and one row of counters.

ghost use Rattle.std.specs.Prelude.{◌≡◌, ◌++◌, ◌∷◌, [], ◌==◌, List, ℕ, length, IfOk, All};
ghost use Rattle.std.specs.List.{flat_map, list_all};
ghost use Rattle.tail_book.specs.Lookup.{activities, aircraft};
ghost use Rattle.tail_book.specs.LegalTests.{are_legal_below, are_flown_once_below, is_legal_plan};
ghost use Rattle.maint_counters.specs.inside.StepTable.{IsStepTableOf};
ghost use Rattle.plan_audit.specs.inside.Times.{AreTimes};

use maint_counters::{StepTable, is_legal_route};
use std::alloc::Global;
use tail_book::laws::every_book_is_sound;
use tail_book::{Book, Memory, Plan, Route};

fn are_legal_routes(book: &Book, table: &StepTable, routes: &[Route], values: &mut [i64]) -> bool
    requires table { IsStepTableOf book.now table.now }
    requires one_each { length routes.now ≡ aircraft book.now }
    requires width { length values.old ≡ length book.now.rules.counters }
    ensures { result ≡ are_legal_below book.now routes.now (aircraft book.now) }
{
    every_book_is_sound(book);
    for k in 0..routes.len() {
        let route = &routes[k];
        if !is_legal_route(book, table, k as u32, &route.0, values) {
            return false;
        }
    }
    true
}

// Counts an activity up to 2; a number that is not of the book is passed over.
fn count_activity(a: u32, times: &mut [u8])
    ensures counts { (flown : List ℕ) → AreTimes times.old flown → AreTimes times.new (flown ++ a ∷ []) }
    ensures long { length times.new ≡ length times.old }
{
    if (a as usize) < times.len() {
        times[a as usize] = times[a as usize].min(1) + 1;
    }
}

fn count_route(route: &[u32], times: &mut [u8])
    ensures counts { (flown : List ℕ) → AreTimes times.old flown → AreTimes times.new (flown ++ route.now) }
    ensures long { length times.new ≡ length times.old }
{
    for a in route {
        count_activity(*a, times);
    }
}

fn count_routes(routes: &[Route], times: &mut [u8])
    ensures counts { (flown : List ℕ) → AreTimes times.old flown → AreTimes times.new (flown ++ flat_map (λ route. route) routes.now) }
    ensures long { length times.new ≡ length times.old }
{
    for route in routes {
        count_route(&route.0, times);
    }
}

fn are_ones(times: &[u8]) -> bool
    ensures { result ≡ list_all (λ time. time == 1) times.now }
{
    times.iter().all(|time| *time == 1)
}

fn are_counted_once(book: &Book, routes: &[Route], times: &mut [u8]) -> bool
    requires long { length times.old ≡ activities book.now }
    requires none { All (λ time. time ≡ 0) times.old }
    ensures { result ≡ are_flown_once_below routes.now (activities book.now) }
{
    count_routes(routes, times);
    are_ones(times)
}

fn are_flown_once(alloc: Global, book: &Book, routes: &[Route]) -> Result<bool, Memory>
    ensures { IfOk result (λ once. once ≡ are_flown_once_below routes.now (activities book.now)) }
{
    let mut times = vec![in alloc; 0; book.activities.len()]?;
    Ok(are_counted_once(book, routes, &mut times))
}

/// Whether a plan is legal.
pub fn is_legal(alloc: Global, book: &Book, plan: &Plan) -> Result<bool, Memory>
    ensures { IfOk result (λ legal. legal ≡ is_legal_plan book.now plan.now) }
{
    let routes = plan.0.as_slice();
    if routes.len() != book.tails.len() {
        return Ok(false);
    }
    let table = StepTable::of(alloc, book)?;
    let mut values = vec![in alloc; 0; book.rules.counters.len()]?;
    if !are_legal_routes(book, &table, routes, &mut values) {
        return Ok(false);
    }
    are_flown_once(alloc, book, routes)
}
