//! Laws over the definitions alone, with no text judged: the contract of each function is the law.

ghost use Rattle.cert_checker.specs.Certificate.{AcceptedClaimsAreTrue};
ghost use Rattle.cert_checker.specs.LeanTree.{LeanTreesAreWhole, WholeTreesAreLean};
ghost use Rattle.cert_checker.specs.LeastWeight.{LeastWeightsAreFound};
ghost use Rattle.cert_checker.specs.Judged.{FailuresAreNo, FailuresStay, VerdictsAreOfEnds};
ghost use Rattle.cert_checker.specs.Verdict.{AcceptedIsYes, YesIsAccepted, YesIsTrue};
ghost use Rattle.cert_checker.specs.inside.KeptFloors.{FloorsBelowStay};
ghost use Rattle.cert_checker.specs.inside.ToldLines.{FailuresDependOnLines};

use branch_marks::laws::{
    alive_decides, bounds_decide, closed_families_bound, fact_of_decides, fits_decides,
    following_facts_are_of_book, follows_decides, has_fact_decides, low_bounds_are_shown,
    rounded_up_is_least, shown_decides, shown_roots_bound, stuck_is_shown, undecided_decides,
    undecided_pairs_are_of_book,
};
use cert_lines::laws::{read_lines_are_spelled, spelled_lines_are_read, spelled_lines_are_short};
use floor_rows::laws::{brought_tells, floors_are_least};
use tail_book::laws::{
    legal_plan_decides, legal_plans_cost_at_most, legal_route_decides, legal_routes_rise,
    own_costs_of_legal_plans,
};

/// What is found among all rising lists of activities is the least weight of an aircraft.
pub fn least_weights_are_found()
    ensures { LeastWeightsAreFound }
{
    legal_routes_rise();
    legal_route_decides();
    fits_decides();
}

/// A tree with lean leaves stands for one that is told whole.
pub fn lean_trees_are_whole()
    ensures { LeanTreesAreWhole }
{
    least_weights_are_found();
    stuck_is_shown();
    low_bounds_are_shown();
}

/// A tree that is shown is so with lean leaves, and bounds no lower.
pub fn whole_trees_are_lean()
    ensures { WholeTreesAreLean }
{
    least_weights_are_found();
    closed_families_bound();
    rounded_up_is_least();
}

/// What an accepted certificate claims is true of the book.
pub fn accepted_claims_are_true()
    ensures { AcceptedClaimsAreTrue }
{
    lean_trees_are_whole();
    shown_roots_bound();
    legal_plans_cost_at_most();
    own_costs_of_legal_plans();
}

/// A yes comes only to a text that is accepted for its claim.
pub fn yes_is_accepted()
    ensures { YesIsAccepted }
{
    has_fact_decides();
    follows_decides();
    undecided_decides();
    shown_decides();
    bounds_decide();
    legal_plan_decides();
    read_lines_are_spelled();
}

/// Every text that is accepted for a claim gets a yes for it.
pub fn accepted_is_yes()
    ensures { AcceptedIsYes }
{
    alive_decides();
    follows_decides();
    fact_of_decides();
    undecided_decides();
    following_facts_are_of_book();
    undecided_pairs_are_of_book();
    has_fact_decides();
    shown_decides();
    bounds_decide();
    legal_plan_decides();
    spelled_lines_are_read();
    spelled_lines_are_short();
}

/// The claim of a yes is true of the book.
pub fn yes_is_true()
    ensures { YesIsTrue }
{
    yes_is_accepted();
    accepted_claims_are_true();
}

/// A failure depends on the text up to the line that it is told with, and on nothing behind that line.
pub fn failures_depend_on_lines()
    ensures { FailuresDependOnLines }
{}

/// The verdict on a text is what judging it leaves, where no more comes.
pub fn verdicts_are_of_ends()
    ensures { VerdictsAreOfEnds }
{}

/// A failure that a front of a text met is that of the whole text, whatever stands behind.
pub fn failures_stay()
    ensures { FailuresStay }
{
    read_lines_are_spelled();
    spelled_lines_are_short();
}

/// A failure is a no.
pub fn failures_are_no()
    ensures { FailuresAreNo }
{}

/// A fact leaves an aircraft its floors at all activities to which it closes no way.
pub fn floors_below_stay()
    ensures { FloorsBelowStay }
{
    floors_are_least();
    brought_tells();
}
