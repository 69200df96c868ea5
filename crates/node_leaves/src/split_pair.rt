//! The pair on which a node is split: about the activity and the aircraft that a dive would choose, the first activity that
//! none of the routes has, or that several have.

ghost use Rattle.std.specs.Prelude.{◌≡◌, ◌<◌, All, length, IfSome, IfNone};
ghost use Rattle.tail_book.specs.Lookup.{activities, aircraft};
ghost use Rattle.tail_book.specs.Plan.{route_of};
ghost use Rattle.tail_book.specs.declared.place.Place.TheVariants.{Carry};
ghost use Rattle.tail_book.specs.inside.Rising.{IsRisingFrom};
ghost use Rattle.branch_marks.specs.Branches.{IsUndecided};
ghost use Rattle.branch_marks.specs.inside.MarkTables.{AreMarksOf};
ghost use Rattle.dive_heuristic.specs.Dive.{HasNoHole};
ghost use Rattle.dive_heuristic.specs.LeastRoutes.{AreRoutesOfFleet, IsEachInOne};
ghost use Rattle.node_leaves.specs.Choice.{IsChosenPair, IsPairAt};

use branch_marks::{Fact, Marks, Pair};
use dive_heuristic::choice;
use dive_heuristic::laws::choices_are_undecided;
use tail_book::laws::{every_book_is_sound, legal_routes_rise, rising_routes_are_below};
use tail_book::{Book, Flown, Route};

// The link into an activity of a route, unless it is tied or there is none, and then that the aircraft flies the activity.
fn pair_at(book: &Book, marks: &Marks, route: &[u32], k: u32, a: u32) -> Pair
    requires marks { AreMarksOf book.now marks.now }
    requires of_book { All (λ b. b < activities book.now) route.now }
    requires activity { a < activities book.now }
    ensures { IsPairAt marks.now.facts route.now k a result }
{
    marks.facts_are_of_book(book);
    for i in 1..route.len() {
        let x = route[i - 1];
        if route[i] == a && !marks.has(Fact::Tie(x, a)) {
            return Pair::Link(x, a);
        }
    }
    Pair::Fly(k, a)
}

// The pair at an activity and at the aircraft that is to fly it.
fn pair_of(book: &Book, marks: &Marks, routes: &[Route], k: u32, a: u32) -> Pair
    requires marks { AreMarksOf book.now marks.now }
    requires one_each { length routes.now ≡ aircraft book.now }
    requires rising { All (IsRisingFrom (activities book.now) Carry) routes.now }
    requires aircraft { k < aircraft book.now }
    requires activity { a < activities book.now }
    ensures { IsPairAt marks.now.facts (route_of routes.now k) k a result }
{
    rising_routes_are_below();
    let route = &routes[k as usize];
    pair_at(book, marks, &route.0, k, a)
}

/// The pair that routes of least weight choose, one for each aircraft; nothing where each activity is in exactly one of them.
pub fn chosen_pair(
    book: &Book,
    marks: &Marks,
    routes: &[Route],
    tally: &mut [Flown],
) -> Option<Pair>
    requires marks { AreMarksOf book.now marks.now }
    requires fitting { AreRoutesOfFleet book.now marks.now.facts routes.now }
    requires somebody { HasNoHole book.now marks.now.facts }
    requires tally { length tally.old ≡ activities book.now }
    ensures tally { length tally.new ≡ activities book.now }
    ensures none { IfNone result (IsEachInOne book.now routes.now) }
    ensures chosen { IfSome result (IsChosenPair book.now marks.now.facts routes.now) }
    ensures undecided { IfSome result (IsUndecided book.now marks.now.facts) }
{
    every_book_is_sound(book);
    legal_routes_rise();
    rising_routes_are_below();
    choices_are_undecided();
    let Some((k, a)) = choice(book, marks, routes, tally) else {
        return None;
    };
    Some(pair_of(book, marks, routes, k, a))
}
