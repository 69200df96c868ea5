//! Laws of pools, of settled duals, and of least routes that are a plan. Duals that are settled over a pool with the
//! least weights are settled over all legal routes that fit; and where least routes fly each activity once they are a
//! plan, and no legal plan of which the marks hold costs less.

ghost use Rattle.branch_marks.specs.Pool.{LeastInIsLeast};
ghost use Rattle.branch_marks.specs.Settled.{SumsExist, SettledOverPoolIsSettled, RoutesOfWeightsArePlan, RoutesOfLeastWeightsCostLeast};

use crate::laws::{fits_decides, least_weights_are_one, least_weights_bound, rounded_up_is_least};
use tail_book::laws::{
    legal_route_decides, legal_routes_rise, total_by_number, total_of_legal_plan,
};

/// The least weight in a pool is one that a route of the aircraft has and none undercuts.
pub fn least_in_is_least()
    ensures { LeastInIsLeast }
{}

/// Where no aircraft is stuck, duals have a Lagrangian sum.
pub fn sums_exist()
    ensures { SumsExist }
{
    legal_routes_rise();
    legal_route_decides();
    fits_decides();
}

/// Duals that are settled over a pool with the least weights are settled over all legal routes that fit.
pub fn settled_over_pool_is_settled()
    ensures { SettledOverPoolIsSettled }
{
    least_in_is_least();
    least_weights_are_one();
}

/// Routes that weigh their aircraft's values and fly each activity once are a legal plan that costs the Lagrangian sum.
pub fn routes_of_weights_are_plan()
    ensures { RoutesOfWeightsArePlan }
{
    total_by_number();
    total_of_legal_plan();
}

/// Where these are least weights, no legal plan of which the marks hold costs less.
pub fn routes_of_least_weights_cost_least()
    ensures { RoutesOfLeastWeightsCostLeast }
{
    total_by_number();
    total_of_legal_plan();
    rounded_up_is_least();
    least_weights_bound();
}
