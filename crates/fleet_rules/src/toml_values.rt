//! What a table of the rules holds at one of its keys.
//!
//! Each reader looks one key up, and answers code `MISSING` where it is absent. A value of another kind is refused like one of
//! its own kind that is not good.

ghost use Rattle.std.specs.Prelude.{◌≡◌, ◌≤◌, map, pos, ◌-ℤ◌, true, IfOk, option_map};
ghost use Rattle.std.specs.List.{AllPass, list_any};
ghost use Rattle.std.specs.Str.{bytes_eq};
ghost use Rattle.toml.specs.View.{table_view, view};
ghost use Rattle.tail_book.specs.Name.{is_name};
ghost use Rattle.tail_book.specs.declared.limits.TheConstants.{DAY};
ghost use Rattle.tail_book.specs.Ranges.{IsWithin};
ghost use Rattle.tail_text.specs.Checks.{look_each};
ghost use Rattle.table_records.specs.inside.NameLists.{AreNames};
ghost use Rattle.table_records.specs.inside.NoRow.{Judges};
ghost use Rattle.toml.specs.Data.{get_member};
ghost use Rattle.fleet_rules.specs.TomlValues.{count_at, count_within, has_only, name_at, name_of_value, names_at, number_at, number_within, time_at, truth_at, value_at, values_of};

use std::alloc::Global;
use table_records::{NoRow, name_in};
use tail_book::Name;
use tail_text::{clock, codes};
use toml::{Table, Value};

/// Whether the table has none but the listed keys.
pub(crate) fn has_only(table: &Table, listed: &[&str]) -> bool
    ensures { result ≡ has_only (map (λ key. key.now) listed.now) (table_view table.now) }
{
    for key in table.keys() {
        if !is_listed(key.as_str(), listed) {
            return false;
        }
    }
    true
}

fn is_listed(key: &str, listed: &[&str]) -> bool
    ensures { result ≡ list_any (bytes_eq key.now) (map (λ key. key.now) listed.now) }
{
    for other in listed {
        if key == *other {
            return true;
        }
    }
    false
}

/// The value at a key.
pub(crate) fn value_at<'a>(table: &'a Table, key: &str) -> Option<&'a Value>
    ensures { option_map (λ v. view v.now) result ≡ get_member key.now (table_view table.now) }
{
    table.get(key)
}

/// The values of a value that is an array.
pub(crate) fn values_of(value: &Value) -> Option<&[Value]>
    ensures { option_map (λ values. map view values.now) result ≡ values_of (view value.now) }
{
    match value.as_array() {
        Some(array) => Some(array.as_slice()),
        None => None,
    }
}

/// The number from `least` to `most` at a key, or code `NUMBER`.
pub(crate) fn number_at(table: &Table, key: &str, least: i64, most: i64) -> Result<i64, u8>
    ensures value { result ≡ number_at key.now least most (table_view table.now) }
    ensures range { IfOk result (IsWithin least most) }
{
    let Some(value) = value_at(table, key) else {
        return Err(codes::MISSING);
    };
    number_within(value.as_integer(), least, most)
}

/// The number from `least` to `most`, or code `NUMBER`.
pub(crate) fn number_within(number: Option<i64>, least: i64, most: i64) -> Result<i64, u8>
    ensures value { result ≡ number_within least most number }
    ensures range { IfOk result (IsWithin least most) }
{
    match number {
        Some(number) if least <= number && number <= most => Ok(number),
        _ => Err(codes::NUMBER),
    }
}

/// The count up to `most` at a key, or code `NUMBER`.
pub(crate) fn count_at(table: &Table, key: &str, most: u64) -> Result<u64, u8>
    ensures value { result ≡ count_at key.now most (table_view table.now) }
    ensures range { IfOk result (λ count. count ≤ most) }
{
    let Some(value) = value_at(table, key) else {
        return Err(codes::MISSING);
    };
    count_within(value.as_integer(), most)
}

fn count_within(number: Option<i64>, most: u64) -> Result<u64, u8>
    ensures value { result ≡ count_within most number }
    ensures range { IfOk result (λ count. count ≤ most) }
{
    match number {
        Some(number) if number >= 0 && number as u64 <= most => Ok(number as u64),
        _ => Err(codes::NUMBER),
    }
}

/// The name at a key, or code `NAME`.
pub(crate) fn name_at(table: &Table, key: &str) -> Result<Name, u8>
    ensures value { result ≡ name_at key.now (table_view table.now) }
    ensures grammar { IfOk result (λ name. is_name name ≡ true) }
{
    let Some(value) = value_at(table, key) else {
        return Err(codes::MISSING);
    };
    name_of_value(value)
}

fn name_of_value(value: &Value) -> Result<Name, u8>
    ensures value { result ≡ name_of_value (view value.now) }
    ensures grammar { IfOk result (λ name. is_name name ≡ true) }
{
    let Some(text) = value.as_str() else {
        return Err(codes::NAME);
    };
    name_in(text.as_bytes())
}

/// The time of day at a key, in minutes since midnight, or code `STAMP`.
pub(crate) fn time_at(table: &Table, key: &str) -> Result<i64, u8>
    ensures value { result ≡ time_at key.now (table_view table.now) }
    ensures range { IfOk result (IsWithin (pos 0) (DAY -ℤ pos 1)) }
{
    let Some(value) = value_at(table, key) else {
        return Err(codes::MISSING);
    };
    let Some(text) = value.as_str() else {
        return Err(codes::STAMP);
    };
    match clock(text.as_bytes()) {
        Ok(minutes) => Ok(minutes),
        Err(_) => Err(codes::STAMP),
    }
}

/// The truth value at a key, or code `SHAPE`.
pub(crate) fn truth_at(table: &Table, key: &str) -> Result<bool, u8>
    ensures { result ≡ truth_at key.now (table_view table.now) }
{
    let Some(value) = value_at(table, key) else {
        return Err(codes::MISSING);
    };
    match value.as_bool() {
        Some(truth) => Ok(truth),
        None => Err(codes::SHAPE),
    }
}

/// The names at a key: code `SHAPE` for another value than an array, `NAME` for an element that is no name, and `TOO_MANY`
/// where all are names and more than `most`.
pub(crate) fn names_at(
    alloc: Global,
    table: &Table,
    key: &str,
    most: usize,
) -> Result<Vec<Name>, NoRow>
    ensures value { Judges (λ names. names.items) (names_at key.now most (table_view table.now)) result }
    ensures grammar { IfOk result (λ names. AreNames most names.items) }
{
    let Some(value) = value_at(table, key) else {
        return Err(NoRow::Code(codes::MISSING));
    };
    let Some(values) = values_of(value) else {
        return Err(NoRow::Code(codes::SHAPE));
    };
    let names = names_among(alloc, values)?;
    if names.len() > most {
        return Err(NoRow::Code(codes::TOO_MANY));
    }
    Ok(names)
}

// The names that these values are.
fn names_among(alloc: Global, values: &[Value]) -> Result<Vec<Name>, NoRow>
    ensures value { Judges (λ names. names.items) (look_each name_of_value (map view values.now)) result }
    ensures grammar { IfOk result (λ names. AllPass is_name names.items) }
{
    let mut names = Vec::new(alloc);
    for value in values {
        match name_of_value(value) {
            Ok(name) => {
                if names.push(name).is_err() {
                    return Err(NoRow::Memory);
                }
            }
            Err(code) => return Err(NoRow::Code(code)),
        }
    }
    Ok(names)
}
