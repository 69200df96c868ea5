//! Laws of weights, and of the bounds that they give. A weight is added up along a route, activity by activity; and
//! weak duality: the duals and a low weight of each aircraft bound the cost of every legal plan of which the marks
//! hold.

ghost use Rattle.branch_marks.specs.Weights.{WeightsAlong, WeightIsAlong, WeightWithOneMore, LeastWeightsAreOne, LeastWeightsExist};
ghost use Rattle.branch_marks.specs.Bound.{RoundedUpIsLeast, LowWeightsBound, LeastWeightsBound};

use crate::laws::{fits_decides, marked_routes_fit};
use tail_book::laws::{
    cost_with_one_more_in, legal_route_decides, legal_routes_rise, total_by_number,
    total_of_legal_plan,
};

/// What is added up along a route is its cost less its duals.
pub fn weights_along()
    ensures { WeightsAlong }
{}

/// A route weighs what is added up along it from the carry-in on.
pub fn weight_is_along()
    ensures { WeightIsAlong }
{
    weights_along();
}

/// With an activity more at its end a route weighs what that activity adds more.
pub fn weight_with_one_more()
    ensures { WeightWithOneMore }
{
    cost_with_one_more_in();
}

/// An aircraft has one least weight at most.
pub fn least_weights_are_one()
    ensures { LeastWeightsAreOne }
{}

/// An aircraft that is not stuck has a least weight.
pub fn least_weights_exist()
    ensures { LeastWeightsExist }
{
    legal_routes_rise();
    legal_route_decides();
    fits_decides();
}

/// Rounding up gives the least number of cost units that are as many thousandths.
pub fn rounded_up_is_least()
    ensures { RoundedUpIsLeast }
{}

/// Weak duality: duals and low weights bound the cost of every legal plan of which the marks hold.
pub fn low_weights_bound()
    ensures { LowWeightsBound }
{
    marked_routes_fit();
    total_by_number();
    total_of_legal_plan();
}

/// Duals and least weights bound the cost of every legal plan of which the marks hold.
pub fn least_weights_bound()
    ensures { LeastWeightsBound }
{
    low_weights_bound();
}
