//! Laws of splits, of what they leave undecided, and of marks that leave no plan. Every plan is in one branch of a
//! split and in one alone, and each branch has fewer undecided pairs than the marks: so a search that splits comes to
//! an end.

ghost use Rattle.branch_marks.specs.DeadEnds.{HolesLeaveNoPlan, StuckLeavesNoPlan};
ghost use Rattle.branch_marks.specs.Branches.{UndecidedPairsAreOfBook, OneBranchHolds, FactsDecide, BranchesDecide};
ghost use Rattle.branch_marks.specs.inside.BranchTests.{UndecidedDecides, FactsLeaveNoMore, BranchesLeaveFewer};

use crate::laws::{alive_decides, has_fact_decides, marked_routes_fit, usable_decides};
use tail_book::laws::each_is_flown_once;

/// Marks that leave an activity alive for nobody hold of no legal plan.
pub fn holes_leave_no_plan()
    ensures { HolesLeaveNoPlan }
{
    marked_routes_fit();
    each_is_flown_once();
}

/// Marks that leave an aircraft no route hold of no legal plan.
pub fn stuck_leaves_no_plan()
    ensures { StuckLeavesNoPlan }
{
    marked_routes_fit();
}

/// An undecided pair is of the book.
pub fn undecided_pairs_are_of_book()
    ensures { UndecidedPairsAreOfBook }
{}

/// Every plan is in one branch of a split, and in one alone.
pub fn one_branch_holds()
    ensures { OneBranchHolds }
{}

/// A further fact makes no pair undecided.
pub fn facts_decide()
    ensures { FactsDecide }
{}

/// Neither branch of a split leaves its pair undecided.
pub fn branches_decide()
    ensures { BranchesDecide }
{}

/// Whether marks leave a pair undecided is decided by a test.
pub fn undecided_decides()
    ensures { UndecidedDecides }
{
    alive_decides();
    usable_decides();
    has_fact_decides();
}

/// A further fact leaves no more undecided pairs.
pub fn facts_leave_no_more()
    ensures { FactsLeaveNoMore }
{
    facts_decide();
    undecided_decides();
}

/// Each branch of a split on an undecided pair leaves fewer undecided pairs.
pub fn branches_leave_fewer()
    ensures { BranchesLeaveFewer }
{
    facts_decide();
    branches_decide();
    undecided_decides();
    undecided_pairs_are_of_book();
}
