//! What pricing, the search within a cut, dives and the plan finder answer on small books, and the numbers of ascents.

mod ascents;
mod asks;
mod books;
mod cells;
mod dives;
mod finds;
mod labels;
mod left_out;
mod prices;
mod questions;
mod routes;
mod shortages;
mod weights;

use tail_book::*;

// Whether these are the routes of a plan.
fn are_routes(plan: &Plan, routes: &[&[u32]]) -> bool {
    if plan.0.len() != routes.len() {
        return false;
    }
    for (route, flown) in plan.0.iter().zip(routes) {
        if route.0.as_slice() != *flown {
            return false;
        }
    }
    true
}
