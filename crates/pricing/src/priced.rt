//! The answer of pricing: the least weight with a route that has it, or that no legal route of the aircraft fits the
//! marks.

use tail_book::Route;

/// What an aircraft's routes weigh at least.
#[derive(Debug, Drop)]
pub enum Priced {
    /// The least weight in thousandths of a cost unit, and a legal route that fits the marks and weighs it.
    Best { value: i64, route: Route },
    /// No legal route of the aircraft fits the marks.
    Stuck,
}
