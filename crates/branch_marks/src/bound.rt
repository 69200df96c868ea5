//! Lagrangian sums as bounds: when one reaches the cost to undercut, and what it comes to in whole cost units.
//!
//! Costs are whole numbers, so a bound that passes what a plan of one unit less comes to leaves none that is cheaper. All is
//! exact: sums are of 128 bits, and nothing is subtracted, since a target may be 0.

ghost use Rattle.std.specs.Prelude.{◌≡◌, ◌↔◌, ◌+◌, ◌/◌, pos, IsTrue, IfSome, IfNone};
ghost use Rattle.branch_marks.specs.Bound.{bound_of, rounded_up, Passes};

use tail_book::COST_UNIT;

/// A Lagrangian sum as a bound on costs, in thousandths of a cost unit: the larger of it and 0, since no plan costs less.
pub fn bound_from(sum: i128) -> i128
    ensures { result ≡ pos (bound_of sum) }
{
    if sum < 0 { 0 } else { sum }
}

// The same without a sign.
fn bound_of(sum: i128) -> u128
    ensures { result ≡ bound_of sum }
{
    bound_from(sum) as u128
}

/// Whether a Lagrangian sum, in thousandths, leaves no plan that is cheaper than the target, in cost units.
pub fn passes(sum: i128, target: u64) -> bool
    ensures { IsTrue result ↔ Passes (bound_of sum) target }
{
    u128::from(COST_UNIT) * u128::from(target) < bound_of(sum) + u128::from(COST_UNIT)
}

/// What a Lagrangian sum bounds costs by, in cost units, where it leaves room for a plan that is cheaper than the target.
pub fn bound_below(sum: i128, target: u64) -> Option<u64>
    ensures some { IfSome result (λ low. low ≡ rounded_up sum) }
    ensures left { IfSome result (λ _. ¬ Passes (bound_of sum) target) }
    ensures closed { IfNone result (Passes (bound_of sum) target) }
{
    if passes(sum, target) {
        return None;
    }
    Some(round_up(bound_of(sum), target))
}

// A bound in cost units, rounded up, which is below the target.
fn round_up(bound: u128, target: u64) -> u64
    requires { ¬ Passes bound target }
    ensures { result ≡ (bound + 999) / 1000 }
{
    ((bound + 999) / u128::from(COST_UNIT)) as u64
}
