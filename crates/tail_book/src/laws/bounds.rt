//! Laws of what routes cost at most. None asks for a legal route: numbers that rise, or that are of the book, are
//! enough. With duals in the box every reduced cost lies within 2^61 of 0, and so fits 64 bits.

ghost use Rattle.std.specs.Prelude.{◌≤◌, ◌+◌, ◌*◌, ◌^◌};
ghost use Rattle.tail_book.specs.CostTable.{box_end};
ghost use Rattle.tail_book.specs.inside.RouteBounds.{RisingRoutesAreShort, RisingRoutesAreBelow, RoutesCostAtMost, RisingRoutesCostAtMost, RoutesCostAtMostIn, RisingRoutesCostAtMostIn, ReducedCostsAreSmall};

use super::every_cost_table_is_sound;
use crate::CostTable;

/// One activity's costs, and a dual, are small in thousandths of a cost unit.
pub fn costs_are_small(table: &CostTable)
    requires { 1 ≤ table.now.n }
    ensures costs { 1000 * (table.now.fly_max + table.now.band_max) ≤ 2 ^ 61 }
    ensures duals { box_end table.now ≤ 2 ^ 61 }
{
    every_cost_table_is_sound(table);
}

/// Numbers that rise below n are at most n.
pub fn rising_routes_are_short()
    ensures { RisingRoutesAreShort }
{}

/// Each number of a route that rises below n is below n.
pub fn rising_routes_are_below()
    ensures { RisingRoutesAreBelow }
{}

/// A route costs at most two million for each of its activities.
pub fn routes_cost_at_most()
    ensures { RoutesCostAtMost }
{}

/// A route whose numbers rise costs at most what bounds every legal plan.
pub fn rising_routes_cost_at_most()
    ensures { RisingRoutesCostAtMost }
{}

/// By a table a route costs at most the two maxima for each of its activities.
pub fn routes_cost_at_most_in()
    ensures { RoutesCostAtMostIn }
{}

/// By a table a route whose numbers rise costs at most what bounds every legal plan.
pub fn rising_routes_cost_at_most_in()
    ensures { RisingRoutesCostAtMostIn }
{}

/// With duals in the box the reduced cost of a route whose numbers rise lies within 2^61 of 0.
pub fn reduced_costs_are_small()
    ensures { ReducedCostsAreSmall }
{}
