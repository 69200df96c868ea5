//! The entries of the key `type`: a name, the cost units of a minute flown, and the turn in minutes.
//!
//! The keys are looked up in this order, and the first that is absent or bad decides.

ghost use Rattle.std.specs.Prelude.{◌≡◌, IfOk};
ghost use Rattle.toml.specs.View.{table_view};
ghost use Rattle.tail_book.specs.inside.Sound.{IsKind};
ghost use Rattle.fleet_rules.specs.TypeEntry.{type_in, types};

use crate::entries::Entry;
use crate::toml_values::{count_at, has_only, name_at, number_at};
use std::alloc::Global;
use table_records::NoRow;
use tail_book::AircraftType;
use tail_book::limits::{DAY, RATE_LIMIT, TYPE_LIMIT};
use toml::Table;

impl Entry for AircraftType {
    ghost section = { types };

    ghost sound = { IsKind };

    fn key() -> &'static str {
        "type"
    }

    fn limit() -> usize {
        TYPE_LIMIT
    }

    fn has_its_keys_only(table: &Table) -> bool {
        has_only(table, &["name", "rate", "turn"])
    }

    fn entry_of(_alloc: Global, table: &Table) -> Result<AircraftType, NoRow> {
        Ok(type_in(table)?)
    }
}

fn type_in(table: &Table) -> Result<AircraftType, u8>
    ensures value { result ≡ type_in (table_view table.now) }
    ensures sound { IfOk result IsKind }
{
    let name = name_at(table, "name")?;
    let rate = count_at(table, "rate", RATE_LIMIT)?;
    let turn = number_at(table, "turn", 0, DAY)?;
    Ok(AircraftType { name, rate, turn })
}
