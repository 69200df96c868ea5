//! An aircraft as its record in the fleet says it.
//!
//! It keeps what a record has to keep by itself, so whoever takes one need not look again.

use std::marker::Model;
use tail_book::Name;

/// The value with which an aircraft comes in at a counter, from 0 to 10,000,000: landings where those are counted, and
/// else minutes.
#[derive(Clone, Copy, PartialEq, Eq, Debug)]
pub struct RawCarry {
    pub counter: Name,
    pub value: i64,
}

/// An aircraft with its names not looked up yet.
/// Contracts see the record of its fields, with a list for each `Vec`, and that the record is good by itself.
#[derive(Debug, Drop)]
pub struct RawTail {
    pub name: Name,
    pub kind: Name,
    pub at: Name,
    /// In minutes since 1970-01-01T00:00 UTC.
    pub ready: i64,
    /// What each of its activities costs beside its minutes, in cost units.
    pub fixed: u64,
    pub tags: Vec<Name>,
    pub avoid: Vec<Name>,
    pub carry: Vec<RawCarry>,
}

impl Model for RawTail {
    ghost use Rattle.fleet_rules.specs.Tail.{RawTailSeen};
    ghost use Rattle.fleet_rules.specs.inside.Tail.{IsRawTail};

    ghost Value = { RawTailSeen };

    ghost use Rattle.fleet_rules.specs.inside.TailParts.{seen_of};

    ghost view = { seen_of };

    ghost invariant = { λ t. IsRawTail (seen_of t) };
}
