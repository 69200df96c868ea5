//! Laws over the definitions alone: the contract of each function is the law.

ghost use Rattle.shortage_report.specs.inside.Laws.{ShortagesCanBeTold, TrueWhysLeaveNoPlan};

use plan_shortage::laws::shortages_leave_no_plan;

/// A shortage of a book can be told: its numbers are the book's, and its mosts come to a number of 64 bits.
pub fn shortages_can_be_told()
    ensures { ShortagesCanBeTold }
{}

/// Where what is told is true, and is not that a legal plan exists, no plan is legal.
pub fn true_whys_leave_no_plan()
    ensures { TrueWhysLeaveNoPlan }
{
    shortages_leave_no_plan();
}
