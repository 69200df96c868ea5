//! The labels of a cover or of a stuck leaf, as its lines gave them. They are only claimed: what they show is tested
//! once all of them have come.

use branch_marks::Row;
use std::marker::Model;

/// A label: its activity, its weight in thousandths of a cost unit, and its counters. Contracts see the record of these.
#[derive(Drop)]
pub struct Label {
    pub at: u32,
    pub weight: i64,
    pub counters: Row,
}

impl Model for Label {
    ghost use Rattle.branch_marks.specs.Labels.{Label as LabelSeen};

    ghost Value = { LabelSeen };

    ghost view = { λ l. record { at = l.at; weight = l.weight; counters = l.counters } };
}
