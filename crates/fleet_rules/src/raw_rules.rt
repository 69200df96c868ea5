//! The rules as their table says them, with their names not looked up yet.
//!
//! Each value keeps what an entry has to keep by itself, so whoever takes one need not look again.

use crate::ZoneRule;
use std::marker::Model;
use tail_book::{AircraftType, Band, CounterKind, Name};

/// An airport, with the rule of its local time. See `tail_book::Airport`.
/// Contracts see the record of its fields, and that they are good by themselves.
#[derive(Debug, Drop)]
pub struct RawAirport {
    pub name: Name,
    pub zone: ZoneRule,
    pub turn: i64,
}

impl Model for RawAirport {
    ghost use Rattle.fleet_rules.specs.RawRules.{RawAirportSeen};
    ghost use Rattle.fleet_rules.specs.inside.RawRules.{IsRawAirport};

    ghost Value = { RawAirportSeen };

    ghost use Rattle.fleet_rules.specs.inside.RawRulesParts.{airport_seen};

    ghost view = { airport_seen };

    ghost invariant = { λ p. IsRawAirport (airport_seen p) };
}

/// Hours in which an airport is closed, in local minutes of the day, 0 to 1439. See `tail_book::Curfew`.
/// Contracts see the record of its fields, and that they are good by themselves.
#[derive(Debug, Drop)]
pub struct RawCurfew {
    pub airport: Name,
    pub from: i64,
    pub to: i64,
    pub types: Vec<Name>,
    pub starts: bool,
    pub landings: bool,
}

impl Model for RawCurfew {
    ghost use Rattle.fleet_rules.specs.RawRules.{RawCurfewSeen};
    ghost use Rattle.fleet_rules.specs.inside.RawRules.{IsRawCurfew};

    ghost Value = { RawCurfewSeen };

    ghost use Rattle.fleet_rules.specs.inside.RawRulesParts.{curfew_seen};

    ghost view = { curfew_seen };

    ghost invariant = { λ c. IsRawCurfew (curfew_seen c) };
}

/// A cumulative maintenance limit; that of a days counter in minutes. See `tail_book::Counter`.
/// Contracts see the record of its fields, and that they are good by themselves.
#[derive(Debug, Drop)]
pub struct RawCounter {
    pub name: Name,
    pub kind: CounterKind,
    /// In landings where those are counted, and else in minutes.
    pub limit: i64,
    pub bases: Vec<Name>,
    /// The least minutes of a stop that clears it.
    pub stop: i64,
}

impl Model for RawCounter {
    ghost use Rattle.fleet_rules.specs.RawRules.{RawCounterSeen};
    ghost use Rattle.fleet_rules.specs.inside.RawRules.{IsRawCounter};

    ghost Value = { RawCounterSeen };

    ghost use Rattle.fleet_rules.specs.inside.RawRulesParts.{counter_seen};

    ghost view = { counter_seen };

    ghost invariant = { λ c. IsRawCounter (counter_seen c) };
}

/// All rules, each kind in the order of its entries.
/// Contracts see the record of their lists, and that they keep their limits.
#[derive(Debug, Drop)]
pub struct RawRules {
    pub kinds: Vec<AircraftType>,
    pub airports: Vec<RawAirport>,
    pub curfews: Vec<RawCurfew>,
    pub counters: Vec<RawCounter>,
    pub bands: Vec<Band>,
}

impl Model for RawRules {
    ghost use Rattle.fleet_rules.specs.RawRules.{RawRulesSeen};
    ghost use Rattle.fleet_rules.specs.inside.RawRules.{AreRawRules};

    ghost Value = { RawRulesSeen };

    ghost use Rattle.fleet_rules.specs.inside.RawRulesParts.{rules_seen};

    ghost view = { rules_seen };

    ghost invariant = { λ r. AreRawRules (rules_seen r) };
}
