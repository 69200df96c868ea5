//! What is left out where each activity has an aircraft that flies it, or nobody: judged, since those who suggest it promise nothing.
//!
//! Nobody has the number behind that of the last aircraft, so that what nobody flies is one route more.

ghost use Rattle.std.specs.Prelude.{ℕ, ◌≡◌, ◌≤◌, ◌<◌, IfOk, IfSome, IsTrue, length, nat_le};
ghost use Rattle.std.specs.List.{list_all};
ghost use Rattle.tail_book.specs.Lookup.{aircraft};
ghost use Rattle.tail_book.specs.Plan.{route_of};
ghost use Rattle.tail_book.specs.Route.{IsLegalRoute};
ghost use Rattle.maint_counters.specs.inside.StepTable.{IsStepTableOf};
ghost use Rattle.fullest_plan.specs.LeftOut.{IsLeftOut};

use maint_counters::{StepTable, is_legal_route};
use std::alloc::Global;
use tail_book::laws::{every_book_is_sound, plans_by_fliers_partition, times_with_one_more_route};
use tail_book::{Book, Memory, Plan, Route, plan_by};

// Whether each number is that of an aircraft, or the one behind the last.
fn are_at_most(fliers: &[u32], last: u32) -> bool
    ensures { result ≡ list_all (λ k. nat_le k last) fliers.now }
{
    fliers.iter().all(|k| *k <= last)
}

// Whether the first routes are legal, one for each aircraft.
fn are_legal(book: &Book, steps: &StepTable, routes: &[Route], values: &mut [i64]) -> bool
    requires steps { IsStepTableOf book.now steps.now }
    requires one_each { aircraft book.now ≤ length routes.now }
    requires width { length values.old ≡ length book.now.rules.counters }
    ensures { IsTrue result → (k : ℕ) → k < aircraft book.now → IsLegalRoute book.now k (route_of routes.now k) }
{
    every_book_is_sound(book);
    for k in 0..book.tails.len() {
        let route = &routes[k];
        if !is_legal_route(book, steps, k as u32, &route.0, values) {
            return false;
        }
    }
    true
}

// Whether a plan's first routes are legal, one for each aircraft.
fn is_legal_so_far(alloc: Global, book: &Book, plan: &Plan) -> Result<bool, Memory>
    requires { aircraft book.now ≤ length plan.now }
    ensures { IfOk result (λ legal. IsTrue legal → (k : ℕ) → k < aircraft book.now → IsLegalRoute book.now k (route_of plan.now k)) }
{
    let steps = StepTable::of(alloc, book)?;
    let mut values = vec![in alloc; 0; book.rules.counters.len()]?;
    Ok(are_legal(book, &steps, plan.0.as_slice(), &mut values))
}

// A route of a plan.
fn route_of(alloc: Global, plan: &Plan, k: u32) -> Result<Vec<u32>, Memory>
    requires { k < length plan.now }
    ensures { IfOk result (λ list. list.items ≡ route_of plan.now k) }
{
    let route = &plan.0[k as usize];
    let list = Vec::from_slice(alloc, &route.0)?;
    Ok(list)
}

/// What these fliers leave out, or nothing where an aircraft's route by them is not legal.
pub fn left_out(alloc: Global, book: &Book, fliers: &[u32]) -> Result<Option<Vec<u32>>, Memory>
    ensures { IfOk result (λ found. IfSome found (λ list. IsLeftOut book.now list.items)) }
{
    every_book_is_sound(book);
    times_with_one_more_route();
    plans_by_fliers_partition();
    let nobody = book.tails.len() as u32;
    if fliers.len() != book.activities.len() || !are_at_most(fliers, nobody) {
        return Ok(None);
    }
    let plan = plan_by(alloc, fliers, nobody + 1)?;
    if !is_legal_so_far(alloc, book, &plan)? {
        return Ok(None);
    }
    let list = route_of(alloc, &plan, nobody)?;
    Ok(Some(list))
}

/// Where nobody flies, all is left out.
pub fn all_left_out(alloc: Global, book: &Book) -> Result<Vec<u32>, Memory>
    ensures { IfOk result (λ list. IsLeftOut book.now list.items) }
{
    every_book_is_sound(book);
    let n = book.activities.len();
    let mut list = Vec::with_capacity(alloc, n)?;
    for a in 0..n {
        list.push(a as u32)?;
    }
    Ok(list)
}
