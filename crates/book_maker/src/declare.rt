//! The entries of each table in their order, whose names become known one kind after the other.
//!
//! An entry uses only names of kinds that were declared before its own: a curfew those of airports and types, a counter
//! those of airports, an aircraft those of types, airports and counters, an activity those of aircraft too. So one pass
//! over each table is enough.

ghost use Rattle.std.specs.Prelude.{◌≡◌, ◌≤◌, ◌<◌, length, map, All, None, Ok, Some, OnOk};
ghost use Rattle.tail_book.specs.declared.limits.TheConstants.{ACTIVITY_LIMIT, AIRPORT_LIMIT, COUNTER_LIMIT, CURFEW_LIMIT, TAIL_LIMIT, TYPE_LIMIT};
ghost use Rattle.tail_text.specs.inside.Reading.{Answers};
ghost use Rattle.tail_text.specs.declared.refusal.Table.TheVariants.{Rules as RulesTable};
ghost use Rattle.timetable_reader.specs.inside.Activity.{IsRawActivity};
ghost use Rattle.fleet_rules.specs.inside.Tail.{IsRawTail};
ghost use Rattle.book_maker.specs.inside.Known.{activities_by, tails_by, with_airports, with_counters, with_kinds, with_tails};
ghost use Rattle.book_maker.specs.LookedUp.{looked_up_in};
ghost use Rattle.book_maker.specs.RulesFound.{airport_in, counter_in, curfew_in};

use crate::known::Known;
use crate::looked_up::look_up;
use fleet_rules::{RawAirport, RawCounter, RawCurfew, RawTail};
use std::alloc::Global;
use tail_book::{Activity, AircraftType, Airport, Counter, Curfew, Tail};
use tail_text::{Stopped, Table};
use timetable_reader::RawActivity;

/// The types, whose names are known from here on. They are the first entries of the rules.
#[tactic(auto, using(crate::proofs::EntryFacts::mapped_names))]
pub fn declare_kinds(
    alloc: Global,
    kinds: &[AircraftType],
    known: &mut Known,
) -> Result<Vec<AircraftType>, Stopped>
    requires few { length kinds.now ≤ TYPE_LIMIT }
    ensures found { Answers (λ v. v.items) (looked_up_in RulesTable 1 (λ t. Some t.name) (λ t. Ok t) kinds.now) result }
    ensures known { OnOk result (known.new ≡ with_kinds known.old (map (λ t. t.name) kinds.now)) }
{
    let found = look_up(alloc, Table::Rules, 1, known, kinds)?;
    known.kinds = found.names;
    Ok(found.entries)
}

/// The airports, whose names are known from here on.
#[tactic(auto, using(crate::proofs::EntryFacts::mapped_names))]
pub fn declare_airports(
    alloc: Global,
    first: u64,
    airports: &[RawAirport],
    known: &mut Known,
) -> Result<Vec<Airport>, Stopped>
    requires first { first ≤ 1000 }
    requires few { length airports.now ≤ AIRPORT_LIMIT }
    ensures found { Answers (λ v. v.items) (looked_up_in RulesTable first (λ p. Some p.name) airport_in airports.now) result }
    ensures known { OnOk result (known.new ≡ with_airports known.old (map (λ p. p.name) airports.now)) }
{
    let found = look_up(alloc, Table::Rules, first, known, airports)?;
    known.airports = found.names;
    Ok(found.entries)
}

/// The curfews.
pub fn find_curfews(
    alloc: Global,
    first: u64,
    curfews: &[RawCurfew],
    known: &Known,
) -> Result<Vec<Curfew>, Stopped>
    requires first { first ≤ 1000 }
    requires few { length curfews.now ≤ CURFEW_LIMIT }
    ensures { Answers (λ v. v.items) (looked_up_in RulesTable first (λ _. None) (curfew_in known.now.airports known.now.kinds) curfews.now) result }
{
    let found = look_up(alloc, Table::Rules, first, known, curfews)?;
    Ok(found.entries)
}

/// The counters, whose names are known from here on.
#[tactic(auto, using(crate::proofs::EntryFacts::mapped_names))]
pub fn declare_counters(
    alloc: Global,
    first: u64,
    counters: &[RawCounter],
    known: &mut Known,
) -> Result<Vec<Counter>, Stopped>
    requires first { first ≤ 1000 }
    requires few { length counters.now ≤ COUNTER_LIMIT }
    ensures found { Answers (λ v. v.items) (looked_up_in RulesTable first (λ c. Some c.name) (counter_in known.old.airports) counters.now) result }
    ensures known { OnOk result (known.new ≡ with_counters known.old (map (λ c. c.name) counters.now)) }
{
    let found = look_up(alloc, Table::Rules, first, known, counters)?;
    known.counters = found.names;
    Ok(found.entries)
}

/// The aircraft, whose names are known from here on. The header is record 1, so they begin at record 2.
#[tactic(auto, using(crate::proofs::EntryFacts::mapped_names))]
pub fn declare_tails(
    alloc: Global,
    tails: &[RawTail],
    known: &mut Known,
) -> Result<Vec<Tail>, Stopped>
    requires few { length tails.now ≤ TAIL_LIMIT }
    ensures found { Answers (λ v. v.items) (tails_by known.old tails.now) result }
    ensures known { OnOk result (known.new ≡ with_tails known.old (map (λ t. t.name) tails.now)) }
    ensures sound { OnOk result (All IsRawTail tails.now) }
{
    let found = look_up(alloc, Table::Fleet, 2, known, tails)?;
    known.tails = found.names;
    Ok(found.entries)
}

/// The activities, in the order of their table.
pub fn find_activities(
    alloc: Global,
    activities: &[RawActivity],
    known: &Known,
) -> Result<Vec<Activity>, Stopped>
    requires few { length activities.now ≤ ACTIVITY_LIMIT }
    ensures found { Answers (λ v. v.items) (activities_by known.now activities.now) result }
    ensures sound { OnOk result (All IsRawActivity activities.now) }
{
    let found = look_up(alloc, Table::Timetable, 2, known, activities)?;
    Ok(found.entries)
}
