//! How many nodes a search may count. Places that are open at the limit are priced once, and these nodes are not
//! counted.

/// A limit of the nodes that a search counts.
#[derive(Clone, Copy, PartialEq, Eq, Debug)]
pub enum Limit {
    /// Nodes are counted until no place is open.
    Free,
    /// At most so many nodes are counted.
    Nodes(u64),
}
