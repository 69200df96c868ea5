//! Laws of how often routes fly an activity: what never, once and more say of the routes that have it, and that the
//! least activity that is not flown exactly once can be found.

ghost use Rattle.tail_book.specs.inside.Flown.{FlownIsCount, FlownWithOneMore, TimesWithOneMoreRoute, FlownOnceDecides, NeverFlownIsNowhere, FlownOnceIsInOneRoute, LeastNotOnceIsLeast};

/// Never, once and more are the counts 0, 1 and above.
pub fn flown_is_count()
    ensures { FlownIsCount }
{}

/// A count becomes the next one with one time more.
pub fn flown_with_one_more()
    ensures { FlownWithOneMore }
{}

/// A route more adds how often it has the activity.
pub fn times_with_one_more_route()
    ensures { TimesWithOneMoreRoute }
{}

/// Whether an activity is flown exactly once is decided by a test.
pub fn flown_once_decides()
    ensures { FlownOnceDecides }
{}

/// What is never flown stands in no route.
pub fn never_flown_is_nowhere()
    ensures { NeverFlownIsNowhere }
{}

/// Where routes rise, what is flown once is what stands in exactly one of them.
pub fn flown_once_is_in_one_route()
    ensures { FlownOnceIsInOneRoute }
{}

/// The least activity that is not flown exactly once is not, and each before it is.
pub fn least_not_once_is_least()
    ensures { LeastNotOnceIsLeast }
{}
