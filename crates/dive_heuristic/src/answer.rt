//! What a dive answers: a plan, or the steps that led to a dead end.

use branch_marks::Fact;
use tail_book::Plan;

/// A step of a dive: the fact that it adds to the marks.
#[derive(Clone, Copy, PartialEq, Eq, Debug)]
pub enum DiveStep {
    /// A fact that is tried, and may hold of no plan.
    Chosen(Fact),
    /// A fact that follows from the marks before it.
    Forced(Fact),
}

/// Why a dive can't go on.
#[derive(Clone, Copy, PartialEq, Eq, Debug)]
pub enum DeadEnd {
    /// This activity is alive for nobody.
    Hole(u32),
    /// No legal route of this aircraft fits.
    Stuck(u32),
}

/// Where a dive ended.
#[derive(Debug, Drop)]
pub enum Dive {
    /// At a legal plan, with its cost in cost units.
    Plan(Plan, u64),
    /// At a dead end, after all these steps in order.
    Dead { steps: Vec<DiveStep>, end: DeadEnd },
}
