//! Laws of a plan as an assignment of aircraft to activities. Each legal plan is that of its fliers, so whoever goes
//! through all assignments misses none.

ghost use Rattle.tail_book.specs.inside.Fliers.{RoutesByFliersRise, PlansByFliersPartition, FliersOfTheirPlan, PlansByFliersAreLegal, FliersFly, PlansOfTheirFliers};
ghost use Rattle.tail_book.specs.inside.FlownInTurn.{RoutesAreFlownInTurn};

/// A route by fliers rises.
pub fn routes_by_fliers_rise()
    ensures { RoutesByFliersRise }
{}

/// Where each flier is one of the aircraft, their routes have each activity once.
pub fn plans_by_fliers_partition()
    ensures { PlansByFliersPartition }
{}

/// The fliers of the plan that fliers give are those fliers.
pub fn fliers_of_their_plan()
    ensures { FliersOfTheirPlan }
{}

/// A plan by fliers is legal where each of its routes is.
pub fn plans_by_fliers_are_legal()
    ensures { PlansByFliersAreLegal }
{}

/// In a legal plan the flier of an activity is the aircraft whose route has it.
pub fn fliers_fly()
    ensures { FliersFly }
{}

/// The plan that the fliers of a legal plan give is that plan.
pub fn plans_of_their_fliers()
    ensures { PlansOfTheirFliers }
{}

/// The route that fliers give an aircraft is found by one pass over them.
pub fn routes_are_flown_in_turn()
    ensures { RoutesAreFlownInTurn }
{}
