//! What a file tells of a shortage.

use std::marker::Model;
use tail_text::Line;

/// A shortage as a file tells it: its activities by number, in the file's order, and what is told of them in words.
/// Contracts see the record of its fields, each as a list.
#[derive(Drop)]
pub struct ToldShortage {
    /// The line that says what is wanting.
    pub because: Line,
    /// The asked activities.
    pub asked: Vec<u32>,
    /// The brought ones, which make up for asked ones.
    pub brought: Vec<u32>,
    /// The line that says how many of the asked activities the aircraft can fly.
    pub at_most: Line,
}

impl Model for ToldShortage {
    ghost use Rattle.shortage_reader.specs.Told.{ToldSeen};

    ghost Value = { ToldSeen };

    ghost view = { λ t. record { because = t.because; asked = t.asked.items; brought = t.brought.items; at_most = t.at_most } };
}
