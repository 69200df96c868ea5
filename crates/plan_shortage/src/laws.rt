//! Laws over the definitions alone: the contract of each function is the law.

ghost use Rattle.plan_shortage.specs.Shortage.{ShortagesLeaveNoPlan};
ghost use Rattle.plan_shortage.specs.inside.Laws.{SurplusesAreDue, MostsComeToOne};

use tail_book::laws::total_of_legal_plan;

/// Where there is a shortage, no plan is legal.
pub fn shortages_leave_no_plan()
    ensures { ShortagesLeaveNoPlan }
{
    surpluses_are_due();
}

/// In a legal plan the surpluses of all routes come to what is due, since each activity is flown once.
pub fn surpluses_are_due()
    ensures { SurplusesAreDue }
{
    total_of_legal_plan();
}

/// The mosts of all aircraft come to one number, whoever finds them.
pub fn mosts_come_to_one()
    ensures { MostsComeToOne }
{}
