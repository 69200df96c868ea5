//! What a node of a search under quotas answers.

use branch_marks::Pair;

/// How a node ends. Bounds are in thousandths of a cost unit.
#[derive(Clone, Copy, Debug)]
pub enum QuotaStep {
    /// More Ties belong to this quota than it lets a plan have.
    Over(u32),
    /// This activity is alive for nobody.
    Hole(u32),
    /// No legal route of this aircraft fits.
    Stuck(u32),
    /// The sum of duals and fees reaches the target.
    Bounded(i128),
    /// Neither: the node is split on this pair.
    Split {
        /// The pair.
        pair: Pair,
        /// The sum of the settled duals and fees.
        bound: i128,
    },
}
