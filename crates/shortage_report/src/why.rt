//! What is told of a book: why no plan is legal, or that one is. When it is true, `IsTrueWhy` says.

use shortage_finder::FoundShortage;

/// What is told of a book.
#[derive(Drop)]
pub enum Why {
    /// A legal plan exists.
    Feasible,
    /// No plan is legal, since these activities are a shortage.
    Short(FoundShortage),
    /// No plan is legal, and no shortage was found that shows it: these activities are left out by a choice of a legal route for
    /// each aircraft, with no activity in two of them.
    Nothing(Vec<u32>),
}
