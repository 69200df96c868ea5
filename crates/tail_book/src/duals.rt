//! Duals: for each activity what a route saves by flying it, in thousandths of a cost unit.
//!
//! They price the rule that each activity is flown exactly once. A route's cost less the duals of its activities is its
//! weight, and least weights and duals together bound the cost of every legal plan.

use std::marker::Model;

/// A dual for each activity. Contracts see the record of its list.
#[derive(Debug, Drop)]
pub struct Duals {
    /// The dual of activity `a` at place `a`, in thousandths of a cost unit.
    pub values: Vec<i64>,
}

impl Model for Duals {
    ghost use Rattle.tail_book.specs.TableSeen.{DualsSeen};

    ghost Value = { DualsSeen };

    ghost view = { λ d. record { values = d.values.items } };
}
