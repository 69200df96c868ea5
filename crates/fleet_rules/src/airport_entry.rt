//! The entries of the key `airport`: a name, the minutes from UTC to local time or the rule of it, and the turn in
//! minutes.
//!
//! The keys are looked up in this order, and the first that is absent or bad decides. Which of `offset` and `zone` is
//! there is asked before the value of either. Names are compared later, when all three tables are read.

ghost use Rattle.std.specs.Prelude.{◌≡◌, IfOk};
ghost use Rattle.toml.specs.View.{table_view, view};
ghost use Rattle.fleet_rules.specs.AirportEntry.{airport_in, airports, fixed_of_value, zone_at, zone_of_value};
ghost use Rattle.fleet_rules.specs.inside.RawRules.{IsRawAirport};
ghost use Rattle.fleet_rules.specs.inside.Zone.{IsZone};

use crate::entries::Entry;
use crate::toml_values::{has_only, name_at, number_at, number_within, value_at};
use crate::{RawAirport, ZoneRule, zone};
use std::alloc::Global;
use table_records::NoRow;
use tail_book::limits::{AIRPORT_LIMIT, DAY, OFFSET_LIMIT};
use tail_text::codes;
use toml::{Table, Value};

impl Entry for RawAirport {
    ghost section = { airports };

    ghost sound = { IsRawAirport };

    fn key() -> &'static str {
        "airport"
    }

    fn limit() -> usize {
        AIRPORT_LIMIT
    }

    fn has_its_keys_only(table: &Table) -> bool {
        has_only(table, &["name", "offset", "zone", "turn"])
    }

    fn entry_of(_alloc: Global, table: &Table) -> Result<RawAirport, NoRow> {
        Ok(airport_in(table)?)
    }
}

fn airport_in(table: &Table) -> Result<RawAirport, u8>
    ensures value { result ≡ airport_in (table_view table.now) }
    ensures sound { IfOk result IsRawAirport }
{
    let name = name_at(table, "name")?;
    let zone = zone_at(table)?;
    let turn = number_at(table, "turn", 0, DAY)?;
    Ok(RawAirport { name, zone, turn })
}

// The rule of local time, by the one of `offset` and `zone` that is there: code `ZONE` where both are, and `MISSING`
// where neither is.
fn zone_at(table: &Table) -> Result<ZoneRule, u8>
    ensures value { result ≡ zone_at (table_view table.now) }
    ensures sound { IfOk result IsZone }
{
    match (value_at(table, "offset"), value_at(table, "zone")) {
        (Some(_), Some(_)) => Err(codes::ZONE),
        (Some(offset), None) => fixed_of_value(offset),
        (None, Some(zone)) => zone_of_value(zone),
        (None, None) => Err(codes::MISSING),
    }
}

fn fixed_of_value(value: &Value) -> Result<ZoneRule, u8>
    ensures value { result ≡ fixed_of_value (view value.now) }
    ensures sound { IfOk result IsZone }
{
    let minutes = number_within(value.as_integer(), -OFFSET_LIMIT, OFFSET_LIMIT)?;
    Ok(ZoneRule::Fixed(minutes))
}

// The rule of a text, or code `ZONE`.
fn zone_of_value(value: &Value) -> Result<ZoneRule, u8>
    ensures value { result ≡ zone_of_value (view value.now) }
    ensures sound { IfOk result IsZone }
{
    let Some(text) = value.as_str() else {
        return Err(codes::ZONE);
    };
    match zone(text.as_bytes()) {
        Ok(rule) => Ok(rule),
        Err(_) => Err(codes::ZONE),
    }
}
