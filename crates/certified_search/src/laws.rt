//! Laws over the definitions alone: the contract of each function is the law.

ghost use Rattle.certified_search.specs.SearchText.{SearchTreesAreAccepted};

use best_first::laws::best_trees_are_grown;
use branch_tree::laws::{
    grown_trees_are_bounded, grown_trees_are_true, search_trees_are_grown, shown_nodes_are_trees,
};
use cert_checker::laws::whole_trees_are_lean;
use tail_book::laws::{
    fliers_fly, legal_plans_cost_at_most, own_costs_are_for_book, own_costs_keep_outcomes,
    plans_of_their_fliers,
};

/// The tree of every search in either order, with the plan and the claim of its outcome behind it, is an accepted certificate,
/// in either version.
pub fn search_trees_are_accepted()
    ensures { SearchTreesAreAccepted }
{
    search_trees_are_grown();
    best_trees_are_grown();
    grown_trees_are_bounded();
    grown_trees_are_true();
    shown_nodes_are_trees();
    whole_trees_are_lean();
    fliers_fly();
    plans_of_their_fliers();
    legal_plans_cost_at_most();
    own_costs_are_for_book();
    own_costs_keep_outcomes();
}
