//! Laws over the definitions alone: the contract of each function is the law.

ghost use Rattle.plan_repair.specs.inside.Laws.{RepairIsReadBack, TrueRepairsCanBeWritten};
ghost use Rattle.plan_repair.specs.inside.Raised.{RaisedPlansCost};
ghost use Rattle.plan_repair.specs.inside.Rungs.{HighestIsFewest, LeastOfFewestIsRepair};

use plan_report::laws::repaired_is_read_back;
use tail_book::laws::{legal_plans_cost_at_most, legal_plans_fly_the_book};

/// By a table with its moves raised a legal plan costs what it cost, and the raise for each move.
pub fn raised_plans_cost()
    ensures { RaisedPlansCost }
{
    legal_plans_fly_the_book();
}

/// A plan that costs least with its moves raised is a least repair, by however much they are, if no legal plan has fewer.
pub fn least_of_fewest_is_repair()
    ensures { LeastOfFewestIsRepair }
{}

/// With a raise above what any plan costs, a plan that costs least has the fewest moves.
pub fn highest_is_fewest()
    ensures { HighestIsFewest }
{
    legal_plans_cost_at_most();
}

/// The plan of a true repair has one route for each aircraft, of activities of the book.
pub fn true_repairs_can_be_written()
    ensures { TrueRepairsCanBeWritten }
{
    legal_plans_fly_the_book();
}

/// What is written of a repaired plan is read as the names of that plan.
pub fn repair_is_read_back()
    ensures { RepairIsReadBack }
{
    repaired_is_read_back();
}
