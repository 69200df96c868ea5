//! Laws of search trees: the contract of each function is the law.

ghost use Rattle.branch_tree.specs.Laws.{GrownTreesAreBounded, GrownTreesAreTrue, SearchTreesAreGrown, SearchTreesAreTrue, SearchTreesAreShown, SearchTreesAreBounded, DivesAreUsed, ShownNodesAreTrees, OpenPlacesAreFew};
ghost use Rattle.branch_tree.specs.Laws.{BranchesBoundNoLower};

use branch_marks::laws::{
    branches_leave_fewer, facts_leave_no_more, following_facts_are_new, shown_roots_bound,
    sums_never_fall,
};
use tail_book::laws::legal_plans_cost_at_most_in;

/// Shown nodes that leave no place open are a proof tree, with the same bounds and events.
pub fn shown_nodes_are_trees()
    ensures { ShownNodesAreTrees }
{
    following_facts_are_new();
}

/// The bounds of a grown tree reach what its outcome claims.
pub fn grown_trees_are_bounded()
    ensures { GrownTreesAreBounded }
{}

/// What a grown tree ends with is true.
pub fn grown_trees_are_true()
    ensures { GrownTreesAreTrue }
{
    grown_trees_are_bounded();
    shown_nodes_are_trees();
    shown_roots_bound();
    legal_plans_cost_at_most_in();
}

/// The tree of a search is a grown tree.
pub fn search_trees_are_grown()
    ensures { SearchTreesAreGrown }
{}

/// The nodes of a search tree are shown.
pub fn search_trees_are_shown()
    ensures { SearchTreesAreShown }
{}

/// The bounds of a search tree reach what its outcome claims.
pub fn search_trees_are_bounded()
    ensures { SearchTreesAreBounded }
{
    search_trees_are_grown();
    grown_trees_are_bounded();
}

/// What a search tree ends with is true.
pub fn search_trees_are_true()
    ensures { SearchTreesAreTrue }
{
    search_trees_are_grown();
    grown_trees_are_true();
}

/// No dive of a split ended with a plan cheaper than the final target.
pub fn dives_are_used()
    ensures { DivesAreUsed }
{}

/// Of the places that a search keeps open, there is at most one more than there are undecided pairs without facts.
pub fn open_places_are_few()
    ensures { OpenPlacesAreFew }
{
    facts_leave_no_more();
    branches_leave_fewer();
}

/// The duals of a split bound no lower at its branches than at the split.
pub fn branches_bound_no_lower()
    ensures { BranchesBoundNoLower }
{
    sums_never_fall();
}
