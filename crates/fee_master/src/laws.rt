//! Laws of duals and fees that are settled over a pool: the contract of each function is the law.

ghost use Rattle.fee_master.specs.SettledFees.{PooledLeastIsLeast, SettledOverPoolIsSettled};
ghost use Rattle.fee_master.specs.inside.Settling.{PricesAreFair};

use restricted_master::laws::entries_are_small;
use tail_book::laws::{own_costs_are_for_book, rising_routes_are_short};

/// By the book's own costs boxes end early, so no weight with at most fifty fees leaves 2^62.
pub fn prices_are_fair()
    ensures { PricesAreFair }
{
    entries_are_small();
    own_costs_are_for_book();
    rising_routes_are_short();
}

/// A least weight that a route of the pool has is the least in the pool, where its routes are legal and fit.
pub fn pooled_least_is_least()
    ensures { PooledLeastIsLeast }
{}

/// Duals and fees that are settled over a pool with the least routes are settled over all legal routes that fit.
pub fn settled_over_pool_is_settled()
    ensures { SettledOverPoolIsSettled }
{}
