//! What the legs of a plan cost, in cost units.
//!
//! A leg costs its activity and the connection to it, so the legs cost together what their routes cost. Each leg is
//! asked for once, so the rules are asked and no table is made.

ghost use Rattle.std.specs.Prelude.{◌≡◌, ◌<◌, ◌^◌, All};
ghost use Rattle.tail_book.specs.Lookup.{activities, aircraft};
ghost use Rattle.tail_book.specs.Cost.{activity_cost};
ghost use Rattle.plan_audit.specs.inside.Kept.{IsLegOf};
ghost use Rattle.plan_audit.specs.inside.LegCost.{leg_cost, legs_cost};

use crate::leg::Leg;
use maint_counters::flown;
use tail_book::Book;
use tail_book::laws::{activities_cost_at_most, connections_cost_at_most, every_book_is_sound};
use turn_rules::connection_cost;

fn activity_cost(book: &Book, k: u32, a: u32) -> u64
    requires aircraft { k < aircraft book.now }
    requires activity { a < activities book.now }
    ensures { result ≡ activity_cost book.now k a }
{
    let tail = &book.tails[k as usize];
    let kind = &book.rules.kinds[tail.kind as usize];
    kind.rate * flown(book, a).unsigned_abs() + tail.fixed
}

/// What a leg costs.
fn leg_cost(book: &Book, leg: Leg) -> u64
    requires { IsLegOf book.now leg }
    ensures { result ≡ leg_cost book.now leg }
{
    every_book_is_sound(book);
    activities_cost_at_most();
    connections_cost_at_most();
    activity_cost(book, leg.tail, leg.activity)
        + connection_cost(book, &book.rules.bands, leg.tail, leg.from, leg.activity)
}

/// What legs cost together, in cost units.
pub fn legs_cost(book: &Book, legs: &[Leg]) -> u64
    requires legs { All (IsLegOf book.now) legs.now }
    requires range { legs_cost book.now legs.now < 2 ^ 64 }
    ensures { result ≡ legs_cost book.now legs.now }
{
    let mut cost = 0;
    for leg in legs {
        cost += leg_cost(book, *leg);
    }
    cost
}
