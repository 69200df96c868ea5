//! Laws over the definitions alone: the contract of each function is the law.

ghost use Rattle.plan_audit.specs.inside.Laws.{LegsAreOfBook, UnbrokenPlansAreLegal, LegalPlansAreUnbroken, KeptPlansFlyOnce, NamedPlansAreKept};
ghost use Rattle.plan_audit.specs.inside.Told.{UncoveredAreInNoRoute, NotAllowedAreNotPermitted, CurfewsAreInTheWay, NoLinksAreNotConnected, CountersArePastLimits};

use tail_book::laws::{legal_plan_decides, legal_route_decides};

/// The legs of a kept plan are of the book.
pub fn legs_are_of_book()
    ensures { LegsAreOfBook }
{}

/// Where no rule is broken, the kept plan is legal, and costs what its legs cost.
pub fn unbroken_plans_are_legal()
    ensures { UnbrokenPlansAreLegal }
{
    legal_plan_decides();
}

/// Where the kept plan is legal, and no name was unknown or met twice, no rule is broken.
pub fn legal_plans_are_unbroken()
    ensures { LegalPlansAreUnbroken }
{
    legal_route_decides();
}

/// An activity is told as uncovered exactly where no kept route has it.
pub fn uncovered_are_in_no_route()
    ensures { UncoveredAreInNoRoute }
{}

/// A leg is told as not allowed exactly where a kept route has an activity that its aircraft may not fly.
pub fn not_allowed_are_not_permitted()
    ensures { NotAllowedAreNotPermitted }
{}

/// A curfew is told exactly where a kept route has an activity from which a curfew keeps its aircraft.
pub fn curfews_are_in_the_way()
    ensures { CurfewsAreInTheWay }
{}

/// A missing link is told exactly where a kept route has an activity that does not connect to the place before it.
pub fn no_links_are_not_connected()
    ensures { NoLinksAreNotConnected }
{}

/// A counter is told exactly where it is past its limit after a front of a kept route.
pub fn counters_are_past_limits()
    ensures { CountersArePastLimits }
{}

/// A kept plan has a route for each aircraft, all of the book's activities, and flies none of them twice.
pub fn kept_plans_fly_once()
    ensures { KeptPlansFlyOnce }
{}

/// A plan with a route for each aircraft that flies nothing twice is kept as it is when it is spelled by names.
pub fn named_plans_are_kept()
    ensures { NamedPlansAreKept }
{}
