//! How many activities a plan moves. A home is one read, so it takes a pass over the plan.

ghost use Rattle.std.specs.Prelude.{◌≡◌, ◌<◌, ◌^◌, length};
ghost use Rattle.plan_homes.specs.Moves.{is_moved, moves, moves_in};

use tail_book::{Plan, Route};

/// Whether an aircraft moves an activity by flying it: its home is another aircraft.
pub fn is_moved(homes: &[Option<u32>], k: u32, a: u32) -> bool
    ensures { result ≡ is_moved homes.now k a }
{
    match homes.get(a as usize) {
        Some(Some(home)) => *home != k,
        _ => false,
    }
}

// How many activities of its route an aircraft moves.
fn moves_in(homes: &[Option<u32>], k: u32, route: &[u32]) -> u64
    ensures { result ≡ moves_in homes.now k route.now }
{
    route.iter().filter(|a| is_moved(homes, k, **a)).count() as u64
}

// The moves of routes, each flown by the aircraft of its number.
fn moves_of_routes(homes: &[Option<u32>], routes: &[Route]) -> u64
    requires few { length routes.now < 2 ^ 32 }
    requires range { moves homes.now routes.now < 2 ^ 64 }
    ensures { result ≡ moves homes.now routes.now }
{
    let mut count = 0;
    for k in 0..routes.len() {
        let route = &routes[k];
        count += moves_in(homes, k as u32, &route.0);
    }
    count
}

/// How many activities a plan moves: those that another aircraft flies than their home.
pub fn moves(homes: &[Option<u32>], plan: &Plan) -> u64
    requires few { length plan.now < 2 ^ 32 }
    requires range { moves homes.now plan.now < 2 ^ 64 }
    ensures { result ≡ moves homes.now plan.now }
{
    moves_of_routes(homes, &plan.0)
}
