//! The kept plan: the routes that are left of a plan that is read, one for each aircraft.
//!
//! Its legs in reading order are those that an audit judges. Each one goes to the end of the route of its aircraft.

ghost use Rattle.std.specs.Prelude.{◌≡◌, ◌<◌, ◌++◌, ◌∷◌, [], length, map, set, replicate, slice_index_or, IfOk, All};
ghost use Rattle.std.specs.List.{range_with_len};
ghost use Rattle.tail_book.specs.Lookup.{aircraft};
ghost use Rattle.plan_audit.specs.Kept.{kept};
ghost use Rattle.plan_audit.specs.inside.Kept.{route_in, IsLegOf};

use crate::laws::legs_are_of_book;
use crate::leg::{Leg, legs_in};
use crate::met_names::read_names;
use std::alloc::Global;
use tail_book::{Book, Memory, Plan, RawPlan, Route};

fn empty_routes(alloc: Global, n: usize) -> Result<Vec<Route>, Memory>
    ensures { IfOk result (λ routes. routes.items ≡ replicate n []) }
{
    let mut routes = Vec::with_capacity(alloc, n)?;
    for _ in 0..n {
        routes.push(Route(Vec::new(alloc)))?;
    }
    Ok(routes)
}

fn fly_next(route: &mut Route, b: u32) -> Result<(), Memory>
    ensures { IfOk result (λ _. route.new ≡ route.old ++ b ∷ []) }
{
    route.0.push(b)?;
    Ok(())
}

fn add_leg(leg: Leg, routes: &mut Vec<Route>) -> Result<(), Memory>
    requires { leg.tail < length routes.old.items }
    ensures { IfOk result (λ _. routes.new.items ≡ set routes.old.items leg.tail (slice_index_or routes.old.items leg.tail [] ++ leg.activity ∷ [])) }
{
    fly_next(&mut routes[leg.tail as usize], leg.activity)
}

fn routes_in(alloc: Global, book: &Book, legs: &[Leg]) -> Result<Vec<Route>, Memory>
    requires { All (IsLegOf book.now) legs.now }
    ensures { IfOk result (λ routes. routes.items ≡ map (route_in legs.now) (range_with_len 0 (aircraft book.now))) }
{
    let mut routes = empty_routes(alloc, book.tails.len())?;
    for leg in legs {
        add_leg(*leg, &mut routes)?;
    }
    Ok(routes)
}

/// What is left of a plan without the names that are unknown or repeated, whether it is legal or not.
pub fn kept(alloc: Global, book: &Book, raw: &RawPlan) -> Result<Plan, Memory>
    ensures { IfOk result (λ plan. plan ≡ kept book.now raw.now) }
{
    legs_are_of_book();
    let met_names = read_names(alloc, book, raw)?;
    let legs = legs_in(alloc, &met_names.met)?;
    Ok(Plan(routes_in(alloc, book, &legs)?))
}
