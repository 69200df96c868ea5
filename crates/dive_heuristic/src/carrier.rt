//! Who is to fly an activity that is in no route, or in several.
//!
//! Of several that fly it one is to keep it, so that the routes come apart. Where none flies it the marks say who may,
//! and without a hole there is somebody. The routes are walked once, up to the first that has it.

ghost use Rattle.std.specs.Prelude.{◌≡◌, ◌<◌, length, IfSome, IfNone};
ghost use Rattle.tail_book.specs.Lookup.{activities, aircraft};
ghost use Rattle.tail_book.specs.Numbers.{contains};
ghost use Rattle.branch_marks.specs.inside.MarkTables.{AreMarksOf};
ghost use Rattle.dive_heuristic.specs.Choice.{HasIt, NoneHasIt, IsLeastAircraft, IsCarrierOf};
ghost use Rattle.dive_heuristic.specs.Dive.{HasNoHole};

use branch_marks::Marks;
use branch_marks::laws::alive_decides;
use tail_book::{Book, Route};

/// Whether a route has an activity.
pub fn route_has(route: &[u32], a: u32) -> bool
    ensures { result ≡ contains route.now a }
{
    for b in route {
        if a == *b {
            return true;
        }
    }
    false
}

// The least aircraft whose route has an activity, if a route has it.
fn holder(book: &Book, routes: &[Route], a: u32) -> Option<u32>
    requires { length routes.now ≡ aircraft book.now }
    ensures some { IfSome result (IsLeastAircraft book.now (HasIt routes.now a)) }
    ensures none { IfNone result (NoneHasIt routes.now a) }
{
    for k in 0..book.tails.len() as u32 {
        let route = &routes[k as usize];
        if route_has(&route.0, a) {
            return Some(k);
        }
    }
    None
}

/// The least aircraft whose route has an activity or, where none has it, the least that it is alive for.
pub fn carrier(book: &Book, marks: &Marks, routes: &[Route], a: u32) -> u32
    requires marks { AreMarksOf book.now marks.now }
    requires one_each { length routes.now ≡ aircraft book.now }
    requires activity { a < activities book.now }
    requires somebody { HasNoHole book.now marks.now.facts }
    ensures { IsCarrierOf book.now marks.now.facts routes.now a result }
{
    alive_decides();
    if let Some(k) = holder(book, routes, a) {
        return k;
    }
    marks.next_alive(book, a, 0)
}
