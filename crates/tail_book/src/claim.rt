//! What is claimed of a book, by a planner's answer and at the end of a certificate. When it is true, `IsTrueClaim` says.

ghost use Rattle.std.specs.Prelude.{◌≡◌};
ghost use Rattle.tail_book.specs.Truth.{claim_of};

use crate::Outcome;

/// What is claimed of a book: the cost of a cheapest legal plan, that no plan is legal, or a bound. Costs are in cost units.
#[derive(Clone, Copy, PartialEq, Eq, Debug)]
pub enum Claim {
    /// Some legal plan costs this, and none costs less.
    Optimal(u64),
    /// No plan is legal.
    Infeasible,
    /// Every legal plan costs at least `low`, and the best plan that was found, if any, costs `high`.
    Limit { low: u64, high: Option<u64> },
}

/// What an outcome claims, without its plan.
pub fn claim_of(outcome: &Outcome) -> Claim
    ensures { result ≡ claim_of outcome.now }
{
    match outcome {
        Outcome::Optimal(_, cost) => Claim::Optimal(*cost),
        Outcome::Infeasible => Claim::Infeasible,
        Outcome::Between { low, high, .. } => Claim::Limit {
            low: *low,
            high: Some(*high),
        },
        Outcome::Above { low, .. } => Claim::Limit {
            low: *low,
            high: None,
        },
    }
}
