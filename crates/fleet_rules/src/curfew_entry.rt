//! The entries of the key `curfew`: an airport, its closed hours in local minutes of the day, the types that they hold
//! for, and whether they hold for starts and for landings.
//!
//! Hours over midnight, and hours that end as they begin, are good entries: what they mean is the book's to say.

ghost use Rattle.std.specs.Prelude.{◌≡◌, IfOk};
ghost use Rattle.toml.specs.View.{table_view};
ghost use Rattle.table_records.specs.inside.NoRow.{Judges};
ghost use Rattle.fleet_rules.specs.CurfewEntry.{curfew_in, curfews};
ghost use Rattle.fleet_rules.specs.inside.RawRules.{IsRawCurfew};

use crate::RawCurfew;
use crate::entries::Entry;
use crate::toml_values::{has_only, name_at, names_at, time_at, truth_at};
use std::alloc::Global;
use table_records::NoRow;
use tail_book::limits::{CURFEW_LIMIT, ITEM_LIMIT};
use toml::Table;

impl Entry for RawCurfew {
    ghost section = { curfews };

    ghost sound = { IsRawCurfew };

    fn key() -> &'static str {
        "curfew"
    }

    fn limit() -> usize {
        CURFEW_LIMIT
    }

    fn has_its_keys_only(table: &Table) -> bool {
        has_only(
            table,
            &["airport", "from", "to", "types", "start", "landing"],
        )
    }

    fn entry_of(alloc: Global, table: &Table) -> Result<RawCurfew, NoRow> {
        curfew_in(alloc, table)
    }
}

fn curfew_in(alloc: Global, table: &Table) -> Result<RawCurfew, NoRow>
    ensures value { Judges (λ curfew. curfew) (curfew_in (table_view table.now)) result }
    ensures sound { IfOk result IsRawCurfew }
{
    let airport = name_at(table, "airport")?;
    let from = time_at(table, "from")?;
    let to = time_at(table, "to")?;
    let types = names_at(alloc, table, "types", ITEM_LIMIT)?;
    let starts = truth_at(table, "start")?;
    let landings = truth_at(table, "landing")?;
    Ok(RawCurfew {
        airport,
        from,
        to,
        types,
        starts,
        landings,
    })
}
