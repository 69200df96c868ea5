//! Laws over the definitions alone: the contract of each function is the law.

ghost use Rattle.plan_homes.specs.inside.Laws.{HomesAreForTheBook};

use plan_audit::laws::kept_plans_fly_once;

/// The homes in a published plan are a home for each activity of the book, each nobody or an aircraft of the book.
pub fn homes_are_for_the_book()
    ensures { HomesAreForTheBook }
{
    kept_plans_fly_once();
}
