//! What a search under quotas answers.

use tail_book::Plan;

/// The answer of a search under quotas.
#[derive(Debug, Drop)]
pub enum QuotaOutcome {
    /// A legal plan that keeps the quotas, and its cost in cost units: no legal plan that keeps them costs less.
    Optimal(Plan, u64),
    /// No legal plan keeps the quotas.
    Infeasible,
}
