//! Laws of the same activities under other numbers: in two books with the same aircraft and rules, a route is worth
//! what the records of its activities say, and not their numbers.

ghost use Rattle.tail_book.specs.inside.Renumbered.{RenumberedRoutesAreLegal, RenumberedRoutesCount, RenumberedRoutesCost};

/// Where two books have the same aircraft and rules, a route of the same activities is legal in both or in neither.
pub fn renumbered_routes_are_legal()
    ensures { RenumberedRoutesAreLegal }
{}

/// The counters after it are the same.
pub fn renumbered_routes_count()
    ensures { RenumberedRoutesCount }
{}

/// It costs the same.
pub fn renumbered_routes_cost()
    ensures { RenumberedRoutesCost }
{}
