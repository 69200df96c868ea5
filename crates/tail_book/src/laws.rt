//! Laws over the definitions alone: the contract of each function is the law.
//!
//! A crate above calls one where its proof needs the law. A call computes nothing: the bodies are empty, or look at one
//! field.

ghost use Rattle.tail_book.specs.inside.Rising.{LinksRise, LegalRoutesRise, EachIsFlownOnce};
ghost use Rattle.tail_book.specs.inside.Bounds.{ActivitiesCostAtMost, ConnectionsCostAtMost, LegalPlansCostAtMost};
ghost use Rattle.tail_book.specs.CostTable.{IsCostTable};
ghost use Rattle.tail_book.specs.inside.Sound.{IsBook};
ghost use Rattle.tail_book.specs.inside.TableLaws.{OwnCostsAreForBook, OwnCostsOfActivities, OwnCostsOfConnections, OwnCostsOfRoutes, OwnCostsOfPlans, OwnCostsOfLegalPlans, OwnCostsKeepClaims, OwnCostsKeepOutcomes, LegalPlansCostAtMostIn};
ghost use Rattle.tail_book.specs.inside.SoundTests.{BookDecides, CostTableDecides};
ghost use Rattle.tail_book.specs.inside.Tests.{AllowedDecides, LinkDecides, LimitsDecide, LegalRouteDecides, LegalPlanDecides};

mod along;
mod bounds;
mod fliers;
mod flown;
mod one_more;
mod order;
mod renumbered;
mod sums;

use crate::{Book, CostTable};
pub use along::{counters_along_step, legal_is_legal_along};
pub use bounds::{
    costs_are_small, reduced_costs_are_small, rising_routes_are_below, rising_routes_are_short,
    rising_routes_cost_at_most, rising_routes_cost_at_most_in, routes_cost_at_most,
    routes_cost_at_most_in,
};
pub use fliers::{
    fliers_fly, fliers_of_their_plan, plans_by_fliers_are_legal, plans_by_fliers_partition,
    plans_of_their_fliers, routes_are_flown_in_turn, routes_by_fliers_rise,
};
pub use flown::{
    flown_is_count, flown_once_decides, flown_once_is_in_one_route, flown_with_one_more,
    least_not_once_is_least, never_flown_is_nowhere, times_with_one_more_route,
};
pub use one_more::{
    cost_with_one_more, cost_with_one_more_in, counters_with_one_more, legal_with_one_more,
    place_with_one_more, rising_with_one_more,
};
pub use order::{
    each_at_most_chains, each_at_most_decides, each_at_most_itself, lower_stays_legal,
    lower_stays_within, routes_keep_count, routes_keep_order, steps_keep_count, steps_keep_order,
};
pub use renumbered::{
    renumbered_routes_are_legal, renumbered_routes_cost, renumbered_routes_count,
};
pub use sums::{
    legal_plans_fly_all, legal_plans_fly_the_book, legal_plans_partition, length_of_partition,
    total_by_number, total_of_legal_plan, total_of_partition, total_of_routes, total_of_two_lists,
};

/// What comes directly after an activity has a larger number.
pub fn links_rise()
    ensures { LinksRise }
{}

/// The numbers of a legal route rise strictly and are of the book.
pub fn legal_routes_rise()
    ensures { LegalRoutesRise }
{}

/// In a legal plan each activity is flown by exactly one aircraft.
pub fn each_is_flown_once()
    ensures { EachIsFlownOnce }
{}

/// An activity costs at most what its minutes and its fixed amount come to: 964,000.
pub fn activities_cost_at_most()
    ensures { ActivitiesCostAtMost }
{}

/// A connection costs at most what a band does: a million.
pub fn connections_cost_at_most()
    ensures { ConnectionsCostAtMost }
{}

/// A legal plan costs at most two million for each activity.
pub fn legal_plans_cost_at_most()
    ensures { LegalPlansCostAtMost }
{}

/// The book's own costs are a table for the book.
pub fn own_costs_are_for_book()
    ensures { OwnCostsAreForBook }
{}

/// By the book's own costs an activity costs an aircraft what the book says.
pub fn own_costs_of_activities()
    ensures { OwnCostsOfActivities }
{}

/// By the book's own costs a connection costs what the book says.
pub fn own_costs_of_connections()
    ensures { OwnCostsOfConnections }
{}

/// By the book's own costs a route of the book's activities costs what the book says.
pub fn own_costs_of_routes()
    ensures { OwnCostsOfRoutes }
{}

/// By the book's own costs a plan of the book's activities costs what the book says.
pub fn own_costs_of_plans()
    ensures { OwnCostsOfPlans }
{}

/// By the book's own costs a legal plan costs what the book says.
pub fn own_costs_of_legal_plans()
    ensures { OwnCostsOfLegalPlans }
{}

/// A claim is true by the book's own costs exactly where it is true of the book.
pub fn own_costs_keep_claims()
    ensures { OwnCostsKeepClaims }
{}

/// An answer is true by the book's own costs exactly where it is true of the book.
pub fn own_costs_keep_outcomes()
    ensures { OwnCostsKeepOutcomes }
{}

/// By a table a legal plan costs at most what its maxima say of each activity.
pub fn legal_plans_cost_at_most_in()
    ensures { LegalPlansCostAtMostIn }
{}

/// Whether an aircraft may fly an activity is decided by a test.
pub fn allowed_decides()
    ensures { AllowedDecides }
{}

/// Whether an activity may come directly after a place is decided by a test.
pub fn link_decides()
    ensures { LinkDecides }
{}

/// Whether counters are within their limits is decided by a test.
pub fn limits_decide()
    ensures { LimitsDecide }
{}

/// Whether a route is legal is decided by a test.
pub fn legal_route_decides()
    ensures { LegalRouteDecides }
{}

/// Whether a plan is legal is decided by a test.
pub fn legal_plan_decides()
    ensures { LegalPlanDecides }
{}

/// What every book keeps is decided by a test.
pub fn book_decides()
    ensures { BookDecides }
{}

/// What every cost table keeps is decided by a test.
pub fn cost_table_decides()
    ensures { CostTableDecides }
{}

/// Every book keeps the order, the ranges and the limits of `IsBook`.
pub fn every_book_is_sound(book: &Book)
    ensures { IsBook book.now }
{
    // A look at a field brings out what every book keeps.
    let _ = &book.activities;
}

/// Every cost table keeps its maxima, and no sum of its costs and duals passes 2^61.
pub fn every_cost_table_is_sound(table: &CostTable)
    ensures { IsCostTable table.now }
{
    // A look at a field brings out what every table keeps.
    let _ = &table.fly;
}
