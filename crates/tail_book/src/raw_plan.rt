//! A plan as a text says it, with names in place of numbers. Nothing is known of its names: an audit looks them up.

use crate::Name;
use std::marker::Model;

/// One line of a plan: the aircraft's name, and the ids of the activities that it flies, in order.
/// Contracts see the record of its fields.
#[derive(Debug, Drop)]
pub struct RawLine {
    /// The aircraft's name.
    pub tail: Name,
    /// The ids of its activities, in the order in which it flies them.
    pub ids: Vec<Name>,
}

impl Model for RawLine {
    ghost use Rattle.tail_book.specs.Seen.{RawLineSeen};

    ghost Value = { RawLineSeen };

    ghost view = { λ l. record { tail = l.tail; ids = l.ids.items } };
}

/// A plan with its names not looked up yet, line by line. Contracts see the record of its lines.
#[derive(Debug, Drop)]
pub struct RawPlan {
    pub lines: Vec<RawLine>,
}

impl Model for RawPlan {
    ghost use Rattle.tail_book.specs.Seen.{RawPlanSeen};

    ghost Value = { RawPlanSeen };

    ghost view = { λ p. record { lines = p.lines.items } };
}
