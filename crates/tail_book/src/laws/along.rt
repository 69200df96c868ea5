//! Laws of legality by the counters after the first activities of a route: legal is linked, and within the limits after
//! each of them. So links and limits can be told apart, activity by activity.

ghost use Rattle.tail_book.specs.inside.Along.{CountersAlongStep, LegalIsLegalAlong};

/// The counters after the first activities of a route take its steps one by one.
pub fn counters_along_step()
    ensures { CountersAlongStep }
{}

/// A route is legal exactly where it is linked and the counters are within their limits after each of its first activities.
pub fn legal_is_legal_along()
    ensures { LegalIsLegalAlong }
{}
