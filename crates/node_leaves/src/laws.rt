//! Laws of what a priced store shows, and of what a line spells: the contract of each function is the law.

ghost use Rattle.node_leaves.specs.inside.Leaf.{DualsAreSpelled, LeastWeightsAreSpelled, ZerosAreDuals};
ghost use Rattle.node_leaves.specs.inside.PricedStore.{PricedFamiliesAreShown, PricedEndsAreLow, StuckHaveNoEnd, PricedLabelsAreSpelled};

use branch_marks::laws::fits_is_usable_to_its_end;
use tail_book::laws::{legal_routes_rise, place_with_one_more, reduced_costs_are_small};
use turn_rules::laws::links_leave_time;

/// The labels of a priced store are a shown family.
pub fn priced_families_are_shown()
    ensures { PricedFamiliesAreShown }
{}

/// No end among them is lighter than what every route weighs at least.
pub fn priced_ends_are_low()
    ensures { PricedEndsAreLow }
{
    fits_is_usable_to_its_end();
    place_with_one_more();
}

/// Where the aircraft is stuck there is no end among them.
pub fn stuck_have_no_end()
    ensures { StuckHaveNoEnd }
{
    fits_is_usable_to_its_end();
    place_with_one_more();
}

/// A line spells each of them.
pub fn priced_labels_are_spelled()
    ensures { PricedLabelsAreSpelled }
{
    links_leave_time();
    legal_routes_rise();
    reduced_costs_are_small();
}

/// A line spells each dual in the box.
pub fn duals_are_spelled()
    ensures { DualsAreSpelled }
{}

/// A line spells each least weight under duals in the box.
pub fn least_weights_are_spelled()
    ensures { LeastWeightsAreSpelled }
{
    legal_routes_rise();
    reduced_costs_are_small();
}

/// Duals that are all 0 are in the box.
pub fn zeros_are_duals()
    ensures { ZerosAreDuals }
{}
