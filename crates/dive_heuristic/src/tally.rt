//! A tally: for each activity whether routes fly it never, once, or more often. One pass over the routes makes it.

ghost use Rattle.std.specs.Prelude.{◌≡◌, ◌<◌, All, length, replicate};
ghost use Rattle.tail_book.specs.Plan.{times_flown};
ghost use Rattle.tail_book.specs.declared.flown.Flown.TheVariants.{Never};
ghost use Rattle.dive_heuristic.specs.inside.Flown.{IsTally, TalliesRoute};

use tail_book::laws::{flown_with_one_more, times_with_one_more_route};
use tail_book::{Flown, Route};

// Counts the activities of a route.
fn note_route(tally: &mut [Flown], route: &[u32])
    requires { All (λ a. a < length tally.old) route.now }
    ensures { TalliesRoute tally.old tally.new route.now }
{
    flown_with_one_more();
    for b in route {
        let b = *b as usize;
        tally[b] = tally[b].one_more();
    }
}

// Nothing is flown.
fn clear(tally: &mut [Flown])
    ensures { tally.new ≡ replicate (length tally.old) Never }
{
    tally.fill(Flown::Never);
}

/// Counts the activities of all routes.
pub fn note_routes(tally: &mut [Flown], routes: &[Route])
    requires { All (All (λ a. a < length tally.old)) routes.now }
    ensures count { length tally.new ≡ length tally.old }
    ensures times { IsTally (times_flown routes.now) tally.new }
{
    times_with_one_more_route();
    clear(tally);
    for k in 0..routes.len() {
        let route = &routes[k];
        note_route(tally, &route.0);
    }
}
