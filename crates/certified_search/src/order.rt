//! In which order a search takes the places of its tree.

/// The order of a search.
#[derive(Clone, Copy, PartialEq, Eq, Debug)]
pub enum Order {
    /// The first branch of a node with all below it, and then the second. A node is told as soon as it is counted.
    DepthFirst,
    /// Of all open places the one with the least bound. The tree is told once it is whole.
    LeastBound,
}
