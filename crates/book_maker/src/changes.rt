//! The changes of local time that a rule makes, of the years 1969 to 2200: two a year, in order of their moments.
//!
//! The days of a rule come from the first of its month by the calendar, and arithmetic on its weekday. The months of the
//! two rules are apart, so the order of the months is that of the moments, and nothing is sorted.

ghost use Rattle.std.specs.Prelude.{◌≡◌, ◌≤◌, ◌++◌, ◌+ℤ◌, ◌-ℤ◌, ◌*ℤ◌, IfOk, OnOk, pos};
ghost use Rattle.jiff_core.specs.Calendar.{IsBetween, IsEpochDay, days_from_civil, weekday_number};
ghost use Rattle.std.specs.Int.{IsInRange};
ghost use Rattle.tail_book.specs.Ranges.{IsWithin};
ghost use Rattle.tail_book.specs.inside.Sound.{IsOffset};
ghost use Rattle.fleet_rules.specs.inside.Zone.{IsDayRule, IsDaylight, IsZone};
ghost use Rattle.book_maker.specs.Changes.{change_in, changes_in, changes_of, day_of, days_behind, days_until, standard_of};
ghost use Rattle.book_maker.specs.inside.Changes.{IsChangeYear};

use fleet_rules::{DayRule, ZoneRule};
use jiff_core::civil::{Date, days_in_month};
use std::alloc::Global;
use tail_book::limits::DAY;
use tail_book::{Change, Memory};

/// The first year of which there are changes, and of how many years.
pub const FIRST_YEAR: u16 = 1_969;

pub const YEARS: u16 = 232;

/// The minutes from UTC to local time before the first change.
pub(crate) fn standard_of(zone: ZoneRule) -> i64
    ensures { result ≡ standard_of zone }
{
    match zone {
        ZoneRule::Fixed(offset) => offset,
        ZoneRule::Daylight { standard, .. } => standard,
    }
}

/// The changes of local time by a rule.
pub(crate) fn changes_of(alloc: Global, zone: ZoneRule) -> Result<Vec<Change>, Memory>
    requires { IsZone zone }
    ensures { IfOk result (λ changes. changes.items ≡ changes_of zone) }
{
    match zone {
        ZoneRule::Fixed(_) => Ok(Vec::new(alloc)),
        ZoneRule::Daylight {
            standard,
            daylight,
            first,
            second,
        } => changes_by(alloc, standard, daylight, first, second),
    }
}

// The changes of all years.
fn changes_by(
    alloc: Global,
    standard: i64,
    daylight: i64,
    first: DayRule,
    second: DayRule,
) -> Result<Vec<Change>, Memory>
    requires { IsDaylight standard daylight first second }
    ensures { IfOk result (λ changes. changes.items ≡ changes_of (ZoneRule.Daylight standard daylight first second)) }
{
    let mut changes = Vec::with_capacity(alloc, 464)?;
    for n in 0..YEARS {
        add_changes(
            standard,
            daylight,
            first,
            second,
            FIRST_YEAR + n,
            &mut changes,
        )?;
    }
    Ok(changes)
}

// Adds the two changes of a year.
#[tactic(auto, unfolding(crate::specs::Changes::changes_in))]
fn add_changes(
    standard: i64,
    daylight: i64,
    first: DayRule,
    second: DayRule,
    year: u16,
    changes: &mut Vec<Change>,
) -> Result<(), Memory>
    requires rule { IsDaylight standard daylight first second }
    requires year { IsChangeYear year }
    ensures { OnOk result (changes.new.items ≡ changes.old.items ++ changes_in standard daylight first second year) }
{
    let begins = change_in(year, first, standard, daylight);
    let ends = change_in(year, second, daylight, standard);
    if first.month < second.month {
        changes.push(begins)?;
        changes.push(ends)?;
    } else {
        changes.push(ends)?;
        changes.push(begins)?;
    }
    Ok(())
}

#[tactic(auto, unfolding(crate::specs::Changes::change_in))]
fn change_in(year: u16, rule: DayRule, before: i64, after: i64) -> Change
    requires year { IsChangeYear year }
    requires rule { IsDayRule rule }
    requires before { IsOffset before }
    ensures { result ≡ change_in year rule before after }
{
    Change {
        at: moment_of(day_of(year, rule), rule.time, before),
        offset: after,
    }
}

// The moment of a time of day by clocks that are so far from UTC.
fn moment_of(day: i64, time: i64, before: i64) -> i64
    requires day { IsBetween (pos 0 -ℤ pos 4_400_000) (pos 4_400_000) day }
    requires time { IsWithin (pos 0) (pos 1440) time }
    requires before { IsOffset before }
    ensures { result ≡ day *ℤ pos 1440 +ℤ time -ℤ before }
{
    day * DAY + time - before
}

// The number of a rule's day in a year.
#[tactic(auto, unfolding(crate::specs::Changes::day_of))]
fn day_of(year: u16, rule: DayRule) -> i64
    requires year { IsChangeYear year }
    requires rule { IsDayRule rule }
    ensures value { result ≡ day_of year rule }
    ensures near { IsBetween (pos 0 -ℤ pos 4_400_000) (pos 4_400_000) result }
{
    let first = first_day(year, rule.month);
    let until = days_until(rule.weekday, weekday_number(first));
    let length = days_in_month(year as i16, rule.month);
    first + days_behind(until, rule.week, length) as i64
}

// The number of the first day of a month.
fn first_day(year: u16, month: u8) -> i64
    requires year { IsChangeYear year }
    requires month { IsInRange 1 12 month }
    ensures value { result ≡ days_from_civil (pos year) month 1 }
    ensures near { IsEpochDay result }
{
    Date::constrain(year as i16, month, 1).to_unix_epoch_day() as i64
}

// The number of a day in its week, from 0 for Monday.
#[tactic(auto, unfolding(jiff_core::specs::Calendar::weekday_number))]
fn weekday_number(day: i64) -> u8
    requires { IsEpochDay day }
    ensures value { result ≡ weekday_number day }
    ensures small { result ≤ 6 }
{
    (day + 3).rem_euclid(7).unsigned_abs() as u8
}

#[tactic(auto, unfolding(crate::specs::Changes::days_until))]
fn days_until(weekday: u8, from: u8) -> u8
    requires weekday { weekday ≤ 6 }
    requires from { from ≤ 6 }
    ensures value { result ≡ days_until weekday from }
    ensures small { result ≤ 6 }
{
    (weekday + 7 - (from + 1) % 7) % 7
}

#[tactic(auto, unfolding(crate::specs::Changes::days_behind))]
fn days_behind(until: u8, week: u8, length: u8) -> u8
    requires until { until ≤ 6 }
    requires week { (1 ≤ week) × (week ≤ 5) }
    ensures value { result ≡ days_behind until week length }
    ensures small { result ≤ 34 }
{
    if week == 5 {
        if until + 28 < length {
            until + 28
        } else {
            until + 21
        }
    } else {
        until + 7 * (week - 1)
    }
}
