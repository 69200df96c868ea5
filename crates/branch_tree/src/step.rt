//! What a step on a node answers, and the end that is found for it before anything is told.

use branch_marks::Pair;
use dive_heuristic::Dive;
use tail_book::Route;

/// How a node ended.
#[derive(Debug, Drop)]
pub enum Step {
    /// This activity is alive for nobody.
    Hole(u32),
    /// No legal route of this aircraft fits.
    Stuck(u32),
    /// The Lagrangian bound, in thousandths of a cost unit, leaves no plan that is cheaper than the target. It is the larger of
    /// the Lagrangian sum and 0.
    Bounded(i128),
    /// Neither, under duals that are settled.
    Split {
        /// What the two branches decide.
        pair: Pair,
        /// The Lagrangian bound, in thousandths of a cost unit, which leaves room below the target.
        bound: i128,
        /// A route of least weight for each aircraft.
        routes: Vec<Route>,
        /// A dive from the node.
        dive: Dive,
    },
}

/// The end of a node in which no activity is a hole.
#[derive(Debug, Drop)]
pub enum NodeEnd {
    /// No legal route of this aircraft fits.
    Stuck(u32),
    /// The least weight of each aircraft, in thousandths of a cost unit, with which the Lagrangian sum reaches
    /// the target.
    Bounded(Vec<i64>),
    /// A split, with what its step answers.
    Split {
        pair: Pair,
        bound: i128,
        routes: Vec<Route>,
        dive: Dive,
    },
}
