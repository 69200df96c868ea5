//! What activities and connections cost by the book's own table.
//!
//! An activity is one read. A connection takes the first of at most 8 bands that reaches its minutes on the ground.

ghost use Rattle.std.specs.Prelude.{◌≡◌, ◌<◌, ◌≤◌, ◌+◌};
ghost use Rattle.tail_book.specs.declared.limits.TheConstants.{LEG_COST_LIMIT};
ghost use Rattle.tail_book.specs.Lookup.{activities, aircraft};
ghost use Rattle.tail_book.specs.Cost.{activity_cost, connection_cost};
ghost use Rattle.tail_book.specs.CostTable.{costs_of};
ghost use Rattle.tail_book.specs.Place.{IsPlaceOf};

use tail_book::{Book, CostTable, Place, laws};
use turn_rules::connection_cost;

/// What it costs aircraft `k` to go on from a place with activity `a`, by the book's own costs: the activity, and the
/// connection to it.
pub fn going_cost(book: &Book, costs: &CostTable, k: u32, from: Place, a: u32) -> u64
    requires own { costs.now ≡ costs_of book.now }
    requires aircraft { k < aircraft book.now }
    requires place { IsPlaceOf book.now from }
    requires activity { a < activities book.now }
    ensures value { result ≡ activity_cost book.now k a + connection_cost book.now k from a }
    ensures most { result ≤ LEG_COST_LIMIT }
{
    laws::every_book_is_sound(book);
    laws::connections_cost_at_most();
    laws::own_costs_are_for_book();
    laws::own_costs_of_activities();
    laws::own_costs_of_connections();
    costs.activity_cost(k, a) + connection_cost(book, &costs.bands, k, from, a)
}
