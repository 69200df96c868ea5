//! The answer of a search within a cut: the least weight with a route that has it, or that no route weighs as little as
//! the cut. It does not tell whether the aircraft is stuck.

use tail_book::Route;

/// What an aircraft's routes weigh at least, as far as a cut.
#[derive(Debug, Drop)]
pub enum LeastWithin {
    /// The least weight in thousandths of a cost unit, no more than the cut, and a legal route that fits the marks and weighs it.
    Best { value: i64, route: Route },
    /// Each legal route of the aircraft that fits the marks weighs more than the cut, or there is none.
    NoneWithin,
}
