//! Laws over the definitions alone: the contract of each function is the law. They lead from plans without quotas, and from the book's own
//! costs, to what a search under quotas answers.

ghost use Rattle.quota_search.specs.inside.Kept.{LeastPlansAreLeastKept, NoPlansKeepNone, OwnCostsKeepLeastKept};

use tail_book::laws::own_costs_of_legal_plans;

/// Where no plan is legal, none keeps the quotas.
pub fn no_plans_keep_none()
    ensures { NoPlansKeepNone }
{}

/// A least plan that keeps the quotas is a least one among those that keep them.
pub fn least_plans_are_least_kept()
    ensures { LeastPlansAreLeastKept }
{}

/// What is a least one by the book's own costs is one of the book.
pub fn own_costs_keep_least_kept()
    ensures { OwnCostsKeepLeastKept }
{
    own_costs_of_legal_plans();
}
