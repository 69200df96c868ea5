//! Laws over the definitions alone: the contract of each function is the law. They carry a search under quotas: each end of a node leaves
//! no cheaper plan, what its branches leave none of it leaves none of, and where the root leaves none the best plan is a least one.

ghost use Rattle.quota_split.specs.NodeEnds.{BoundsEnd, BranchesEnd, EmptyRootsEnd, HolesEnd, OversEnd, RootsEnd, StepsEnd, StuckEnds};
ghost use Rattle.quota_split.specs.OnceKept.{BranchesStayOnce, StepsStayOnce};
ghost use Rattle.quota_split.specs.ForcedRoutes.{ForcedRoutesAreAll};
ghost use Rattle.quota_split.specs.Ties.{TiedOverLeavesNoPlan, TiedUsesAreTies};

use branch_marks::laws::{
    followed_marks_hold, following_facts_are_new, has_fact_decides, holes_leave_no_plan,
    one_branch_holds, stuck_leaves_no_plan,
};
use quota_rows::laws::least_fee_weights_bound;
use tail_book::laws::{each_is_flown_once, legal_plans_cost_at_most_in, legal_routes_rise};

/// Marks hold of no plan that keeps a quota of which more are tied than it lets a plan have.
pub fn tied_over_leaves_no_plan()
    ensures { TiedOverLeavesNoPlan }
{
    has_fact_decides();
}

/// A legal plan of which each connection of a quota has a Tie uses it no more often than Ties belong to it.
pub fn tied_uses_are_ties()
    ensures { TiedUsesAreTies }
{
    legal_routes_rise();
    each_is_flown_once();
}

/// Marks that give each aircraft what it flies in a legal plan leave it no other route.
pub fn forced_routes_are_all()
    ensures { ForcedRoutesAreAll }
{
    legal_routes_rise();
    each_is_flown_once();
}

/// A quota with too many Ties ends a node.
pub fn overs_end()
    ensures { OversEnd }
{
    tied_over_leaves_no_plan();
}

/// So does an activity that is alive for nobody.
pub fn holes_end()
    ensures { HolesEnd }
{
    holes_leave_no_plan();
}

/// And an aircraft without a route.
pub fn stuck_ends()
    ensures { StuckEnds }
{
    stuck_leaves_no_plan();
}

/// And a sum with fees that reaches the target.
pub fn bounds_end()
    ensures { BoundsEnd }
{
    least_fee_weights_bound();
}

/// A node ends where both branches do.
pub fn branches_end()
    ensures { BranchesEnd }
{
    one_branch_holds();
}

/// And where it does with all that follows from its marks.
pub fn steps_end()
    ensures { StepsEnd }
{
    followed_marks_hold();
}

/// Where the root ends, a kept plan that costs the target is a least one.
pub fn roots_end()
    ensures { RootsEnd }
{}

/// Where it ends and the target is more than any plan costs, there is no kept plan.
pub fn empty_roots_end()
    ensures { EmptyRootsEnd }
{
    legal_plans_cost_at_most_in();
}

/// Marks in which no fact comes twice stay so with all that follows from them.
pub fn steps_stay_once()
    ensures { StepsStayOnce }
{
    has_fact_decides();
    following_facts_are_new();
}

/// And with either branch of an undecided pair.
pub fn branches_stay_once()
    ensures { BranchesStayOnce }
{
    has_fact_decides();
}
