//! The routes of a list of fliers: one pass over them for each aircraft, so the time is their number times that of the
//! aircraft. A route that is made so rises, since the pass meets the activities in order.

ghost use Rattle.std.specs.Prelude.{◌≡◌, ◌<◌, ◌^◌, IfOk, length};
ghost use Rattle.tail_book.specs.Fliers.{plan_by, route_by};

use crate::laws::routes_are_flown_in_turn;
use crate::{Memory, Plan, Route};
use std::alloc::Global;

// The activities that a list of fliers gives an aircraft.
fn route_by(alloc: Global, fliers: &[u32], k: u32) -> Result<Route, Memory>
    requires { length fliers.now < 2 ^ 32 }
    ensures { IfOk result (λ route. route ≡ route_by fliers.now k) }
{
    routes_are_flown_in_turn();
    let mut route = Vec::new(alloc);
    for (a, flier) in fliers.iter().enumerate() {
        if *flier == k {
            route.push(a as u32)?;
        }
    }
    Ok(Route(route))
}

/// The plan of so many aircraft in which each activity has its flier, by number. A flier that is none of these aircraft flies
/// nothing. The plan is not audited.
pub fn plan_by(alloc: Global, fliers: &[u32], count: u32) -> Result<Plan, Memory>
    requires { length fliers.now < 2 ^ 32 }
    ensures { IfOk result (λ plan. plan ≡ plan_by fliers.now count) }
{
    let mut routes = Vec::new(alloc);
    for k in 0..count {
        routes.push(route_by(alloc, fliers, k)?)?;
    }
    Ok(Plan(routes))
}
