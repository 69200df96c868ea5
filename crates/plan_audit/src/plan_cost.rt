//! What a plan costs in a table, in cost units, where it is legal.
//!
//! An activity is one read of the table, and a connection is looked up among its bands. No sum wraps: what a legal plan
//! costs is bounded by the table's two maxima.

ghost use Rattle.std.specs.Prelude.{◌≡◌, ◌<◌, ◌^◌, length, All};
ghost use Rattle.tail_book.specs.Lookup.{activities, aircraft};
ghost use Rattle.tail_book.specs.CostTable.{IsTableFor, route_cost_in, plan_cost_in};

use tail_book::laws::every_book_is_sound;
use tail_book::{Book, CostTable, Place, Route};
use turn_rules::connection_cost;

fn route_cost(book: &Book, table: &CostTable, k: u32, route: &[u32]) -> u64
    requires table { IsTableFor book.now table.now }
    requires aircraft { k < aircraft book.now }
    requires activities { All (λ a. a < activities book.now) route.now }
    requires range { route_cost_in table.now book.now k route.now < 2 ^ 64 }
    ensures { result ≡ route_cost_in table.now book.now k route.now }
{
    let (mut cost, mut from) = (0, Place::Carry);
    for b in route {
        let b = *b;
        cost += table.activity_cost(k, b) + connection_cost(book, &table.bands, k, from, b);
        from = Place::After(b);
    }
    cost
}

/// What the routes of a plan cost, in cost units, each flown by the aircraft of its number.
pub fn plan_cost(book: &Book, table: &CostTable, routes: &[Route]) -> u64
    requires table { IsTableFor book.now table.now }
    requires one_each { length routes.now ≡ aircraft book.now }
    requires activities { All (All (λ a. a < activities book.now)) routes.now }
    requires range { plan_cost_in table.now book.now routes.now < 2 ^ 64 }
    ensures { result ≡ plan_cost_in table.now book.now routes.now }
{
    every_book_is_sound(book);
    let mut cost = 0;
    for k in 0..routes.len() {
        let route = &routes[k];
        cost += route_cost(book, table, k as u32, &route.0);
    }
    cost
}
