//! The entries of the key `counter`: a name, what is counted, the limit, and the stops that clear it.
//!
//! The kind is read before the limit, since the limit of a days counter is turned into minutes here: from then on a
//! limit and a value are compared as they are.

ghost use Rattle.std.specs.Prelude.{◌≡◌, IfOk};
ghost use Rattle.toml.specs.View.{table_view};
ghost use Rattle.tail_book.specs.inside.Sound.{IsLimit};
ghost use Rattle.table_records.specs.inside.NoRow.{Judges};
ghost use Rattle.fleet_rules.specs.CounterEntry.{counter_in, counters, kind_at, counter_kind, limit_at};
ghost use Rattle.fleet_rules.specs.inside.RawRules.{IsRawCounter};

use crate::RawCounter;
use crate::entries::Entry;
use crate::toml_values::{has_only, name_at, names_at, number_at, value_at};
use std::alloc::Global;
use table_records::NoRow;
use tail_book::CounterKind;
use tail_book::limits::{BASE_LIMIT, COUNTER_LIMIT, DAY, DAYS_LIMIT, STOP_LIMIT, VALUE_LIMIT};
use tail_text::codes;
use toml::Table;

impl Entry for RawCounter {
    ghost section = { counters };

    ghost sound = { IsRawCounter };

    fn key() -> &'static str {
        "counter"
    }

    fn limit() -> usize {
        COUNTER_LIMIT
    }

    fn has_its_keys_only(table: &Table) -> bool {
        has_only(table, &["name", "kind", "limit", "bases", "stop"])
    }

    fn entry_of(alloc: Global, table: &Table) -> Result<RawCounter, NoRow> {
        counter_in(alloc, table)
    }
}

fn counter_in(alloc: Global, table: &Table) -> Result<RawCounter, NoRow>
    ensures value { Judges (λ counter. counter) (counter_in (table_view table.now)) result }
    ensures sound { IfOk result IsRawCounter }
{
    let name = name_at(table, "name")?;
    let kind = kind_at(table, "kind")?;
    let limit = limit_at(table, "limit", kind)?;
    let bases = names_at(alloc, table, "bases", BASE_LIMIT)?;
    let stop = number_at(table, "stop", 1, STOP_LIMIT)?;
    Ok(RawCounter {
        name,
        kind,
        limit,
        bases,
        stop,
    })
}

// The kind of counter at a key, or code `KIND`.
fn kind_at(table: &Table, key: &str) -> Result<CounterKind, u8>
    ensures { result ≡ kind_at key.now (table_view table.now) }
{
    let Some(value) = value_at(table, key) else {
        return Err(codes::MISSING);
    };
    let Some(text) = value.as_str() else {
        return Err(codes::KIND);
    };
    match counter_kind(text) {
        Some(kind) => Ok(kind),
        None => Err(codes::KIND),
    }
}

fn counter_kind(text: &str) -> Option<CounterKind>
    ensures { result ≡ counter_kind text.now }
{
    match text {
        "minutes" => Some(CounterKind::Minutes),
        "landings" => Some(CounterKind::Landings),
        "days" => Some(CounterKind::Days),
        _ => None,
    }
}

// The limit at a key, in minutes or landings, or code `NUMBER`. Days are turned into minutes.
fn limit_at(table: &Table, key: &str, kind: CounterKind) -> Result<i64, u8>
    ensures value { result ≡ limit_at key.now kind (table_view table.now) }
    ensures range { IfOk result (IsLimit kind) }
{
    match kind {
        CounterKind::Minutes | CounterKind::Landings => number_at(table, key, 1, VALUE_LIMIT),
        CounterKind::Days => {
            let days = number_at(table, key, 1, DAYS_LIMIT)?;
            Ok(days * DAY)
        }
    }
}
