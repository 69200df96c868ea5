//! Laws of dives: the contract of each function is the law.

ghost use Rattle.dive_heuristic.specs.inside.Kept.{FitsWithFewer, LeastRoutesStay};
ghost use Rattle.dive_heuristic.specs.LeastRoutes.{LeastRoutesFit};
ghost use Rattle.dive_heuristic.specs.inside.Laws.{ChoicesAreUndecided, MoreFactsLeaveNoMore};

use branch_marks::laws::facts_leave_no_more;
use tail_book::laws::{flown_is_count, flown_once_is_in_one_route, legal_routes_rise};

/// What fits under more marks fits under fewer.
pub fn fits_with_fewer()
    ensures { FitsWithFewer }
{}

/// A route of least weight that still fits under more marks is still of least weight: facts only remove routes.
pub fn least_routes_stay()
    ensures { LeastRoutesStay }
{
    fits_with_fewer();
}

/// Least routes are legal and fit.
pub fn least_routes_fit()
    ensures { LeastRoutesFit }
{}

/// What is chosen was undecided.
pub fn choices_are_undecided()
    ensures { ChoicesAreUndecided }
{
    legal_routes_rise();
    flown_is_count();
    flown_once_is_in_one_route();
}

/// Further facts leave no more undecided.
pub fn more_facts_leave_no_more()
    ensures { MoreFactsLeaveNoMore }
{
    facts_leave_no_more();
}
