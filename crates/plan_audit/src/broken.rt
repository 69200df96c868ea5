//! The rules that a plan breaks.
//!
//! A rule about names keeps the name as the plan spells it, and every other one the book's numbers.

use tail_book::Name;

/// One broken rule. Aircraft, activities and counters are numbers in the book, and stand in this order.
#[derive(Clone, Copy, PartialEq, Eq, Debug)]
pub enum Broken {
    /// No aircraft or activity has the name.
    Unknown(Name),
    /// The aircraft or the activity was named before.
    Twice(Name),
    /// No route has the activity.
    Uncovered(u32),
    /// The aircraft may not fly the activity: its type, its tags, an airport that it avoids, or a preassignment.
    NotAllowed(u32, u32),
    /// A curfew keeps the aircraft from the activity.
    Curfew(u32, u32),
    /// The aircraft isn't at the airport where the activity starts, or not in time.
    NoLink(u32, u32),
    /// After the activity the aircraft is past the limit of the counter.
    Counter(u32, u32, u32),
}

/// What an audit finds.
#[derive(Debug, Drop)]
pub enum Audit {
    /// The plan is legal, and costs this, in cost units.
    Legal(u64),
    /// The rules that it breaks.
    Broken(Vec<Broken>),
}
