//! Where an open place stands among the others: by the bound of the node that opened it, then by how early that node was counted,
//! and of its two branches the first before the second.

ghost use Rattle.std.specs.Prelude.{◌↔◌, IsTrue};
ghost use Rattle.best_first.specs.Rank.{IsBefore};

/// The rank of a place.
#[derive(Clone, Copy, Debug)]
pub struct Rank {
    /// The Lagrangian bound of the node that opened the place, in thousandths of a cost unit; 0 at the root.
    pub bound: i128,
    /// How many nodes had been counted when the place was opened; none at the root.
    pub since: usize,
    /// Whether it is the second branch of that node.
    pub second: bool,
}

impl Rank {
    /// Whether a place of this rank comes before one of the other rank.
    pub fn is_before(&self, other: &Rank) -> bool
        ensures { IsTrue result ↔ IsBefore self.now other.now }
    {
        if self.bound != other.bound {
            return self.bound < other.bound;
        }
        if self.since != other.since {
            return self.since < other.since;
        }
        !self.second && other.second
    }
}
