//! Laws of the order of counter values: no higher before a step is no higher after it, and what is legal with some
//! values is legal with lower ones.

ghost use Rattle.tail_book.specs.inside.Order.{EachAtMostDecides, EachAtMostItself, EachAtMostChains, StepsKeepOrder, RoutesKeepOrder, LowerStaysWithin, LowerStaysLegal, StepsKeepCount, RoutesKeepCount};

/// Whether each value is at most the one at its place is decided by a test.
pub fn each_at_most_decides()
    ensures { EachAtMostDecides }
{}

/// Values are at most themselves.
pub fn each_at_most_itself()
    ensures { EachAtMostItself }
{}

/// What is at most the middle is at most what the middle is at most.
pub fn each_at_most_chains()
    ensures { EachAtMostChains }
{}

/// A step keeps the order of values.
pub fn steps_keep_order()
    ensures { StepsKeepOrder }
{}

/// The steps along a route keep the order of values.
pub fn routes_keep_order()
    ensures { RoutesKeepOrder }
{}

/// What is at most values within their limits is within them.
pub fn lower_stays_within()
    ensures { LowerStaysWithin }
{}

/// A rest of a route that is legal with some values is legal with lower ones.
pub fn lower_stays_legal()
    ensures { LowerStaysLegal }
{}

/// A step keeps one value for each counter.
pub fn steps_keep_count()
    ensures { StepsKeepCount }
{}

/// The steps along a route keep one value for each counter.
pub fn routes_keep_count()
    ensures { RoutesKeepCount }
{}
