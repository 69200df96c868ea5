//! What a search tells of its tree: the facts of its nodes, its splits, and what shows that its leaves are done.
//!
//! The events of a tree stand in its order, first branch first, and each is a line of a certificate.

use crate::{Fact, Pair, Row};

/// A step of a tree, or a part of a leaf.
#[derive(Clone, Copy, PartialEq, Eq, Debug)]
pub enum Event {
    /// A fact that follows from the marks.
    Fact(Fact),
    /// The node is split: the tree of the first branch follows, and then that of the second.
    Split(Pair),
    /// A leaf: no aircraft is alive at the activity.
    Hole(u32),
    /// A leaf: no legal route of the aircraft fits. The labels that show it follow.
    Stuck(u32),
    /// A leaf: what plans cost is bounded. Its duals and then its covers follow.
    Bound,
    /// The dual of an activity, in thousandths of a cost unit, where it is not 0.
    Dual(u32, i64),
    /// What each route of the aircraft weighs at least, in thousandths of a cost unit. The labels that show it follow.
    Cover(u32, i64),
    /// A label: its activity, its weight in thousandths of a cost unit, and its counters in the order of the rules.
    Label { at: u32, weight: i64, counters: Row },
}
