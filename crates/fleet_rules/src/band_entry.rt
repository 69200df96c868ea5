//! The entries of the key `band`: up to how many minutes on the ground a connection costs so many cost units.
//!
//! The first band that reaches counts, so bands keep the order of the text, and need no other.

ghost use Rattle.std.specs.Prelude.{◌≡◌, IfOk};
ghost use Rattle.toml.specs.View.{table_view};
ghost use Rattle.tail_book.specs.inside.Sound.{IsBand};
ghost use Rattle.fleet_rules.specs.BandEntry.{band_in, bands};

use crate::entries::Entry;
use crate::toml_values::{count_at, has_only, number_at};
use std::alloc::Global;
use table_records::NoRow;
use tail_book::Band;
use tail_book::limits::{BAND_COST_LIMIT, BAND_LIMIT, VALUE_LIMIT};
use toml::Table;

impl Entry for Band {
    ghost section = { bands };

    ghost sound = { IsBand };

    fn key() -> &'static str {
        "band"
    }

    fn limit() -> usize {
        BAND_LIMIT
    }

    fn has_its_keys_only(table: &Table) -> bool {
        has_only(table, &["upto", "cost"])
    }

    fn entry_of(_alloc: Global, table: &Table) -> Result<Band, NoRow> {
        Ok(band_in(table)?)
    }
}

fn band_in(table: &Table) -> Result<Band, u8>
    ensures value { result ≡ band_in (table_view table.now) }
    ensures sound { IfOk result IsBand }
{
    let upto = number_at(table, "upto", 0, VALUE_LIMIT)?;
    let cost = count_at(table, "cost", BAND_COST_LIMIT)?;
    Ok(Band { upto, cost })
}
