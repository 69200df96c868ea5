//! What a route costs an aircraft by a table, in cost units: asked once, when the route comes into a pool.
//!
//! A leg costs at most the table's two maxima, and a rising route has no more legs than the book has activities, so no
//! sum wraps.

ghost use Rattle.std.specs.Prelude.{◌≡◌, ◌<◌, ◌≤◌, ◌+◌};
ghost use Rattle.tail_book.specs.Lookup.{activities, aircraft};
ghost use Rattle.tail_book.specs.declared.place.Place.TheVariants.{Carry};
ghost use Rattle.tail_book.specs.CostTable.{IsTableFor, activity_cost_in, connection_cost_in, route_cost_in};
ghost use Rattle.tail_book.specs.Place.{IsPlaceOf};
ghost use Rattle.tail_book.specs.inside.Rising.{IsRisingFrom};

use tail_book::laws::{
    every_cost_table_is_sound, rising_routes_are_below, rising_routes_are_short,
};
use tail_book::{Book, CostTable, Place};
use turn_rules::connection_cost;

// What an activity and the connection to it cost.
fn leg_cost(book: &Book, table: &CostTable, k: u32, from: Place, b: u32) -> u64
    requires table { IsTableFor book.now table.now }
    requires aircraft { k < aircraft book.now }
    requires place { IsPlaceOf book.now from }
    requires activity { b < activities book.now }
    ensures value { result ≡ activity_cost_in table.now k b + connection_cost_in table.now book.now k from b }
    ensures most { result ≤ table.now.fly_max + table.now.band_max }
{
    every_cost_table_is_sound(table);
    let _ = table.greatest_cost();
    table.activity_cost(k, b) + connection_cost(book, &table.bands, k, from, b)
}

/// What a route costs, in cost units, from the carry-in on.
pub fn route_cost(book: &Book, table: &CostTable, k: u32, route: &[u32]) -> u64
    requires table { IsTableFor book.now table.now }
    requires aircraft { k < aircraft book.now }
    requires rising { IsRisingFrom (activities book.now) Carry route.now }
    ensures { result ≡ route_cost_in table.now book.now k route.now }
{
    rising_routes_are_below();
    rising_routes_are_short();
    let _ = table.greatest_cost();
    let mut cost = 0;
    let mut from = Place::Carry;
    for q in 0..route.len() {
        cost += leg_cost(book, table, k, from, route[q]);
        from = Place::After(route[q]);
    }
    cost
}
