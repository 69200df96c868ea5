//! The homes of a book's activities: who flies each of them in a published plan, whatever else that plan holds.
//!
//! The plan may be one of an older timetable. Names that the book does not have, or that stand twice, are left out as they
//! are by an audit, so each activity has one home or none. A home is looked up route by route.

ghost use Rattle.std.specs.Prelude.{◌≡◌, ◌<◌, ◌^◌, IfOk, IfSome, length};
ghost use Rattle.tail_book.specs.Numbers.{contains};
ghost use Rattle.plan_homes.specs.Homes.{home_in, homes};
ghost use Rattle.plan_homes.specs.Moves.{AreHomesFor};

use crate::laws::homes_are_for_the_book;
use plan_audit::kept;
use plan_audit::laws::kept_plans_fly_once;
use std::alloc::Global;
use tail_book::laws::every_book_is_sound;
use tail_book::{Book, Memory, RawPlan, Route};

/// The home of each activity of the book, by number: the aircraft whose route in the published plan has it, or nobody.
pub fn homes(alloc: Global, book: &Book, raw: &RawPlan) -> Result<Vec<Option<u32>>, Memory>
    ensures homes { IfOk result (λ list. list.items ≡ homes book.now raw.now) }
    ensures each { IfOk result (λ list. AreHomesFor book.now list.items) }
{
    every_book_is_sound(book);
    kept_plans_fly_once();
    homes_are_for_the_book();
    let plan = kept(alloc, book, raw)?;
    let mut homes = Vec::with_capacity(alloc, book.activities.len())?;
    for a in 0..book.activities.len() {
        homes.push(home_in(&plan.0, a as u32))?;
    }
    Ok(homes)
}

// Whether a route has an activity.
fn has(route: &Route, a: u32) -> bool
    ensures { result ≡ contains route.now a }
{
    route.0.contains(&a)
}

// The place of the first of these routes that has an activity.
fn place_of(routes: &[Route], a: u32) -> Option<usize>
    ensures place { result ≡ home_in routes.now a }
    ensures within { IfSome result (λ k. k < length routes.now) }
{
    routes.iter().position(|route| has(route, a))
}

// The number of the first of these routes that has an activity.
fn home_in(routes: &[Route], a: u32) -> Option<u32>
    requires { length routes.now < 2 ^ 32 }
    ensures { result ≡ home_in routes.now a }
{
    match place_of(routes, a) {
        Some(k) => Some(k as u32),
        None => None,
    }
}
