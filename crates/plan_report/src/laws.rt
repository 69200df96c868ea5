//! Laws over the definitions alone: the contract of each function is the law.

ghost use Rattle.plan_report.specs.inside.Laws.{AuditsCanBeWritten, RepairedIsReadBack, ReportIsReadBack, TrueOutcomesCanBeWritten};

use plan_audit::laws::legs_are_of_book;
use tail_book::laws::legal_routes_rise;

/// The plan of a true outcome has one route for each aircraft, of activities of the book.
pub fn true_outcomes_can_be_written()
    ensures { TrueOutcomesCanBeWritten }
{
    legal_routes_rise();
}

/// The numbers in the broken rules of an audit are of the book.
pub fn audits_can_be_written()
    ensures { AuditsCanBeWritten }
{
    legs_are_of_book();
}

/// What is written of an outcome with a plan is read as the names of that plan.
pub fn report_is_read_back()
    ensures { ReportIsReadBack }
{}

/// What is written of a repaired plan is read as the names of that plan.
pub fn repaired_is_read_back()
    ensures { RepairedIsReadBack }
{}
