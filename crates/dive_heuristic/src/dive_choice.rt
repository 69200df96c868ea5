//! The choice of a dive: the first activity that the routes do not fly exactly once, and who is to fly it.
//!
//! One pass over the routes counts each activity, so no two routes are compared. The tally is the caller's, and nothing
//! is allocated.

ghost use Rattle.std.specs.Prelude.{◌≡◌, ◌<◌, length, All, IfSome, IfNone};
ghost use Rattle.tail_book.specs.Lookup.{activities, aircraft};
ghost use Rattle.tail_book.specs.Plan.{times_flown};
ghost use Rattle.tail_book.specs.inside.Flown.{IsLeastNotOnce};
ghost use Rattle.branch_marks.specs.inside.MarkTables.{AreMarksOf};
ghost use Rattle.dive_heuristic.specs.Choice.{IsChoice};
ghost use Rattle.dive_heuristic.specs.Dive.{HasNoHole};
ghost use Rattle.dive_heuristic.specs.LeastRoutes.{IsEachInOne};
ghost use Rattle.dive_heuristic.specs.inside.Flown.{IsTally};

use crate::carrier::carrier;
use crate::tally::note_routes;
use branch_marks::Marks;
use tail_book::laws::flown_is_count;
use tail_book::{Book, Flown, Route};

// The least activity that the tally does not have once.
fn least_not_once(book: &Book, tally: &[Flown], routes: &[Route]) -> Option<u32>
    requires count { length tally.now ≡ activities book.now }
    requires times { IsTally (times_flown routes.now) tally.now }
    ensures { IsLeastNotOnce routes.now (activities book.now) result }
{
    flown_is_count();
    for a in 0..book.activities.len() as u32 {
        if tally[a as usize] != Flown::Once {
            return Some(a);
        }
    }
    None
}

/// An aircraft, and the activity that it is chosen to fly; nothing where each activity is in exactly one route.
pub fn choice(
    book: &Book,
    marks: &Marks,
    routes: &[Route],
    tally: &mut [Flown],
) -> Option<(u32, u32)>
    requires marks { AreMarksOf book.now marks.now }
    requires one_each { length routes.now ≡ aircraft book.now }
    requires of_book { All (All (λ a. a < activities book.now)) routes.now }
    requires somebody { HasNoHole book.now marks.now.facts }
    requires count { length tally.old ≡ activities book.now }
    ensures count { length tally.new ≡ activities book.now }
    ensures none { IfNone result (IsEachInOne book.now routes.now) }
    ensures some { IfSome result (λ pair. IsChoice book.now marks.now.facts routes.now pair.0 pair.1) }
{
    note_routes(tally, routes);
    let Some(a) = least_not_once(book, tally, routes) else {
        return None;
    };
    Some((carrier(book, marks, routes, a), a))
}
