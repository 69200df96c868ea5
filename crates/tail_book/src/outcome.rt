//! What a planner answers of a book. When it is true of the book, `IsTrueOutcome` says. Costs and bounds are in cost units.

use crate::Plan;

/// What a planner answers of a book: a plan of least cost, that no plan is legal, or, where it stopped at a limit
/// of nodes, a bound that every legal plan costs at least, with the best plan found if there is one.
/// Costs and bounds are in cost units.
#[derive(Debug, Drop)]
pub enum Outcome {
    /// A plan of least cost, and its cost.
    Optimal(Plan, u64),
    /// No plan is legal.
    Infeasible,
    /// Every legal plan costs at least `low`, and `plan` costs `high`, after so many nodes.
    Between {
        plan: Plan,
        low: u64,
        high: u64,
        nodes: u64,
    },
    /// Every legal plan costs at least `low`, and none was found, after so many nodes.
    Above {
        low: u64,
        nodes: u64,
    },
}
