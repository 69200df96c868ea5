//! Laws over the definitions alone: the contract of each function is the law.

ghost use Rattle.quota_demands.specs.Potentials.{PotentialsBound};
ghost use Rattle.quota_demands.specs.UsesAtLeast.{UsedTooOftenLeavesNoPlan};

use tail_book::laws::{total_by_number, total_of_legal_plan};

/// Potentials together are no more than how often a legal plan uses the quota.
pub fn potentials_bound()
    ensures { PotentialsBound }
{
    total_by_number();
    total_of_legal_plan();
}

/// A quota that every legal plan uses more often than it may leaves no plan that keeps the quotas.
pub fn used_too_often_leaves_no_plan()
    ensures { UsedTooOftenLeavesNoPlan }
{}
