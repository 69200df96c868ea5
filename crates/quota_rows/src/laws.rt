//! Laws over the definitions alone: the contract of each function is the law.

ghost use Rattle.quota_rows.specs.Belongs.{BelongsDecides};
ghost use Rattle.quota_rows.specs.FeeBound.{LagrangianWithoutFees, LeastFeeWeightsBound, LowFeeWeightsBound};
ghost use Rattle.quota_rows.specs.FeeWeights.{FeeWeightIsAlong, FeeWeightWithOneMore, WeightWithoutFees};

use branch_marks::laws::{marked_routes_fit, weight_is_along, weight_with_one_more};
use tail_book::laws::{total_by_number, total_of_legal_plan};

/// The test decides whether a connection belongs to a quota.
pub fn belongs_decides()
    ensures { BelongsDecides }
{}

/// A route weighs with fees what is added up along it from the carry-in on.
pub fn fee_weight_is_along()
    ensures { FeeWeightIsAlong }
{
    weight_is_along();
}

/// With an activity more at its end a route weighs with fees what that activity adds more.
pub fn fee_weight_with_one_more()
    ensures { FeeWeightWithOneMore }
{
    weight_with_one_more();
}

/// Where all fees are 0, a route weighs with them what it weighs.
pub fn weight_without_fees()
    ensures { WeightWithoutFees }
{}

/// And the Lagrangian sum is that without fees.
pub fn lagrangian_without_fees()
    ensures { LagrangianWithoutFees }
{}

/// Weak duality with fees: duals, fees and low weights bound the cost of every legal plan that keeps the quotas and of which
/// the marks hold.
pub fn low_fee_weights_bound()
    ensures { LowFeeWeightsBound }
{
    marked_routes_fit();
    total_by_number();
    total_of_legal_plan();
}

/// Duals, fees and least weights bound it too.
pub fn least_fee_weights_bound()
    ensures { LeastFeeWeightsBound }
{
    low_fee_weights_bound();
}
