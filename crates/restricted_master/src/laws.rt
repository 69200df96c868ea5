//! Laws of pools and duals: the contract of each function is the law.

ghost use Rattle.restricted_master.specs.inside.Choices.{SwitchingPricesAreBest};
ghost use Rattle.restricted_master.specs.inside.Least.{EntriesAreSmall, SumsAreBounded, WeightsAreSmall};

use branch_marks::laws::least_in_is_least;
use tail_book::laws::reduced_costs_are_small;

/// With duals in the box, weights, values and duals lie within 2^61 of 0.
pub fn weights_are_small()
    ensures { WeightsAreSmall }
{
    least_in_is_least();
    reduced_costs_are_small();
}

/// A dual at which exactly one aircraft takes the activity, or from which on one does, is best.
pub fn switching_prices_are_best()
    ensures { SwitchingPricesAreBest }
{}

/// With duals in the box, a route of the pool weighs within 2^61 of 0.
pub fn entries_are_small()
    ensures { EntriesAreSmall }
{
    reduced_costs_are_small();
}

/// With duals in the box, the Lagrangian sum over a pool is bounded.
pub fn sums_are_bounded()
    ensures { SumsAreBounded }
{
    least_in_is_least();
    reduced_costs_are_small();
}
