//! The entries of one key of the rules, whatever they are.
//!
//! What is common to the five keys stands here: an array of tables, a limit, and a number for each entry. What an entry
//! means is for its type to say. One pass over the tables is enough, and nothing behind the first refusal is looked at.

ghost use Rattle.std.specs.Prelude.{◌≡◌, ◌≤◌, ◌+◌, ◌-◌, length, map, All, IfOk, option_map};
ghost use Rattle.toml.specs.View.{table_view, view};
ghost use Rattle.tail_text.specs.Checks.{look_each};
ghost use Rattle.tail_text.specs.inside.Reading.{Answers};
ghost use Rattle.tail_text.specs.declared.refusal.Stopped.TheVariants.{Refused};
ghost use Rattle.table_records.specs.inside.NoRow.{Judges};
ghost use Rattle.fleet_rules.specs.Entries.{Section, entries_at, entries_from, entry_in, refused, entry_table, tables_in};
ghost use Rattle.fleet_rules.specs.TomlValues.{has_only};

use crate::toml_values::{value_at, values_of};
use std::alloc::Global;
use table_records::NoRow;
use tail_text::{Refusal, Stopped, codes};
use toml::{Table, Value};

/// The entries of one key.
pub(crate) trait Entry: Drop {
    ghost section: { Section Self };

    ghost sound: { Self → Type 0 };

    /// The key.
    fn key() -> &'static str
        ensures { result.now ≡ section.key };

    /// The most entries.
    fn limit() -> usize
        ensures { result ≡ section.limit };

    /// Whether a table has none but the keys of an entry.
    fn has_its_keys_only(table: &Table) -> bool
        ensures { result ≡ has_only section.keys (table_view table.now) };

    /// What the keys of an entry give.
    fn entry_of(alloc: Global, table: &Table) -> Result<Self, NoRow>
        ensures value { Judges (λ entry. entry) (section.entry_of (table_view table.now)) result }
        ensures sound { IfOk result sound };
}

/// The refusal of the rules with a code, at the number of an entry, or at 0 for the whole table.
pub(crate) fn refused(code: u8, place: u64) -> Stopped
    ensures { result ≡ Refused (refused code place) }
{
    Stopped::Refused(Refusal {
        code,
        table: tail_text::Table::Rules,
        place,
    })
}

/// The entries of a key, where `before` entries of other keys stand before them.
pub(crate) fn entries_at<E: Entry>(
    alloc: Global,
    rules: &Table,
    before: u64,
) -> Result<Vec<E>, Stopped>
    requires few { before ≤ 1_000 }
    ensures value { Answers (λ entries. entries.items) (entries_at E.section before (table_view rules.now)) result }
    ensures few { IfOk result (λ entries. length entries.items ≤ E.section.limit) }
    ensures sound { IfOk result (λ entries. All E.sound entries.items) }
{
    match tables_in(alloc, value_at(rules, E::key())) {
        Ok(tables) => entries_from(alloc, &tables, before),
        Err(stopped) => Err(stopped),
    }
}

fn tables_in<'a>(alloc: Global, value: Option<&'a Value>) -> Result<Vec<&'a Table>, Stopped>
    ensures { Answers (λ tables. map (λ t. table_view t.now) tables.items) (tables_in (option_map (λ v. view v.now) value.entry)) result }
{
    let Some(value) = value else {
        return Ok(Vec::new(alloc));
    };
    let Some(values) = values_of(value) else {
        return Err(refused(codes::SHAPE, 0));
    };
    tables_among(alloc, values)
}

// These values, which have to be tables.
fn tables_among<'a>(alloc: Global, values: &'a [Value]) -> Result<Vec<&'a Table>, Stopped>
    ensures { Answers (λ tables. map (λ t. table_view t.now) tables.items) (look_each entry_table (map view values.now)) result }
{
    let mut tables = Vec::new(alloc);
    for value in values {
        let Some(table) = value.as_table() else {
            return Err(refused(codes::SHAPE, 0));
        };
        if tables.push(table).is_err() {
            return Err(Stopped::Memory);
        }
    }
    Ok(tables)
}

// The entries that these tables give, each refused at its number.
fn entries_from<E: Entry>(alloc: Global, tables: &[&Table], before: u64) -> Result<Vec<E>, Stopped>
    requires few { before ≤ 1_000 }
    ensures value { Answers (λ entries. entries.items) (entries_from E.section (before + 1) E.section.limit (map (λ t. table_view t.now) tables.now)) result }
    ensures few { IfOk result (λ entries. length entries.items ≤ E.section.limit) }
    ensures sound { IfOk result (λ entries. All E.sound entries.items) }
{
    let mut entries = Vec::new(alloc);
    for table in tables {
        match entry_in::<E>(alloc, E::limit() - entries.len(), table) {
            Ok(entry) => {
                if entries.push(entry).is_err() {
                    return Err(Stopped::Memory);
                }
            }
            Err(NoRow::Code(code)) => return Err(refused(code, before + entries.len() as u64 + 1)),
            Err(NoRow::Memory) => return Err(Stopped::Memory),
        }
    }
    Ok(entries)
}

// What one table gives where so many entries may still come.
fn entry_in<E: Entry>(alloc: Global, room: usize, table: &Table) -> Result<E, NoRow>
    ensures value { Judges (λ entry. entry) (entry_in E.section room (table_view table.now)) result }
    ensures sound { IfOk result E.sound }
{
    if room == 0 {
        return Err(NoRow::Code(codes::TOO_MANY));
    }
    if !E::has_its_keys_only(table) {
        return Err(NoRow::Code(codes::KEY));
    }
    E::entry_of(alloc, table)
}
