//! An activity as its record in the timetable says it.
//!
//! It keeps what a record has to keep by itself, so whoever takes one need not look again.

use std::marker::Model;
use tail_book::Name;

/// An activity with its names not looked up yet. Times are in minutes since 1970-01-01T00:00 UTC.
/// Contracts see the record of its fields, with a list for each `Vec`, and that the record is good by itself.
#[derive(Debug, Drop)]
pub struct RawActivity {
    pub id: Name,
    pub flight: bool,
    pub from: Name,
    pub to: Name,
    pub start: i64,
    pub end: i64,
    pub types: Vec<Name>,
    pub tags: Vec<Name>,
    pub tail: Option<Name>,
    pub resets: Vec<Name>,
}

impl Model for RawActivity {
    ghost use Rattle.timetable_reader.specs.Activity.{RawActivitySeen};
    ghost use Rattle.timetable_reader.specs.inside.Activity.{IsRawActivity};

    ghost Value = { RawActivitySeen };

    ghost use Rattle.timetable_reader.specs.inside.ActivityParts.{seen_of};

    ghost view = { seen_of };

    ghost invariant = { λ a. IsRawActivity (seen_of a) };
}
