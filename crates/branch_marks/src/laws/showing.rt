//! Laws of shown proof trees: a shown tree bounds the cost of every legal plan of which its marks hold, and where its
//! bounds pass what legal plans cost at most, no plan is legal. This is what a certificate is believed for.

ghost use Rattle.branch_marks.specs.ProofTree.{ShownTreesBound, ShownRootsBound, ShownTreesRefute};
ghost use Rattle.branch_marks.specs.inside.TreeTests.{ShownDecides, BoundsDecide};

use crate::laws::{
    alive_decides, closed_families_bound, closed_family_decides, endless_families_stick,
    ends_decide, following_facts_hold, follows_decides, has_fact_decides, holes_leave_no_plan,
    low_weights_bound, no_end_decides, one_branch_holds, stuck_leaves_no_plan, undecided_decides,
};
use tail_book::laws::legal_plans_cost_at_most_in;

/// A shown tree bounds the cost of every legal plan of which its marks hold.
pub fn shown_trees_bound()
    ensures { ShownTreesBound }
{
    following_facts_hold();
    one_branch_holds();
    holes_leave_no_plan();
    stuck_leaves_no_plan();
    low_weights_bound();
    closed_families_bound();
    endless_families_stick();
}

/// From no marks on a shown tree bounds the cost of every legal plan.
pub fn shown_roots_bound()
    ensures { ShownRootsBound }
{
    shown_trees_bound();
}

/// A shown tree whose bounds pass what legal plans cost at most shows that no plan is legal.
pub fn shown_trees_refute()
    ensures { ShownTreesRefute }
{
    shown_roots_bound();
    legal_plans_cost_at_most_in();
}

/// Whether a tree is shown is decided by a test.
pub fn shown_decides()
    ensures { ShownDecides }
{
    alive_decides();
    has_fact_decides();
    follows_decides();
    undecided_decides();
    closed_family_decides();
    ends_decide();
    no_end_decides();
}

/// Whether a tree bounds by so much is decided by a test.
pub fn bounds_decide()
    ensures { BoundsDecide }
{}
