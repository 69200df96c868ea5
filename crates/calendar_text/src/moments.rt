//! Moments as the tables write them, `YYYY-MM-DDTHH:MM`: each is read back as itself, by a law.
//!
//! Years are counted from March on, so that the leap day is the last of its year. Days and months then follow from
//! divisions alone.

ghost use Rattle.std.specs.Prelude.{◌≡◌, ◌<◌, ◌≤◌, ◌++◌, OnOk};
ghost use Rattle.tail_book.specs.inside.Sound.{IsMoment};
ghost use Rattle.calendar_text.specs.Moment.{clock_text, date_text, day_of_month, day_of_year, month_from_march, month_of, moment_text, quarters_of, two_digits, year_from_march, year_of};

use tail_book::Memory;
use tail_text::Line;

/// Appends a moment, in minutes since 1970-01-01T00:00 UTC, as `YYYY-MM-DDTHH:MM`.
#[tactic(auto, unfolding(crate::specs::Moment::moment_text))]
pub fn add_moment(moment: i64, line: &mut Line) -> Result<(), Memory>
    requires { IsMoment moment }
    ensures { OnOk result (line.new ≡ line.old ++ moment_text moment) }
{
    let minute = moment.unsigned_abs();
    add_date(minute / 1440 + 719_468, line)?;
    line.text(b"T")?;
    add_clock(minute % 1440, line)
}

// The date of a day, counted from 1 March of the year 0.
fn add_date(day: u64, line: &mut Line) -> Result<(), Memory>
    requires { day ≤ 803_473 }
    ensures { OnOk result (line.new ≡ line.old ++ date_text day) }
{
    let year = year_of(day);
    add_two_digits(year / 100, line)?;
    add_two_digits(year % 100, line)?;
    line.text(b"-")?;
    add_two_digits(month_of(day), line)?;
    line.text(b"-")?;
    add_two_digits(day_of_month(day_of_year(day)), line)
}

// The time of day of a minute since midnight.
fn add_clock(minute: u64, line: &mut Line) -> Result<(), Memory>
    requires { minute < 1440 }
    ensures { OnOk result (line.new ≡ line.old ++ clock_text minute) }
{
    add_two_digits(minute / 60, line)?;
    line.text(b":")?;
    add_two_digits(minute % 60, line)
}

#[tactic(auto, unfolding(crate::specs::Moment::two_digits))]
fn add_two_digits(n: u64, line: &mut Line) -> Result<(), Memory>
    requires { n < 100 }
    ensures { OnOk result (line.new ≡ line.old ++ two_digits n) }
{
    line.text(&[b'0' + (n / 10) as u8, b'0' + (n % 10) as u8])
}

// The quarters of a day that have passed of a day's century, with three of its own.
fn quarters_of(day: u64) -> u64
    requires { day ≤ 803_473 }
    ensures value { result ≡ quarters_of day }
    ensures range { result < 146_100 }
{
    (4 * day + 3) % 146_097 / 4 * 4 + 3
}

fn year_from_march(day: u64) -> u64
    requires { day ≤ 803_473 }
    ensures value { result ≡ year_from_march day }
    ensures range { result < 9_000 }
{
    100 * ((4 * day + 3) / 146_097) + quarters_of(day) / 1461
}

fn day_of_year(day: u64) -> u64
    requires { day ≤ 803_473 }
    ensures value { result ≡ day_of_year day }
    ensures range { result < 366 }
{
    quarters_of(day) % 1461 / 4
}

fn month_from_march(of_year: u64) -> u64
    requires { of_year < 366 }
    ensures value { result ≡ month_from_march of_year }
    ensures range { result < 15 }
{
    (5 * of_year + 461) / 153
}

fn day_of_month(of_year: u64) -> u64
    requires { of_year < 366 }
    ensures value { result ≡ day_of_month of_year }
    ensures range { result < 32 }
{
    (5 * of_year + 461) % 153 / 5 + 1
}

fn year_of(day: u64) -> u64
    requires { day ≤ 803_473 }
    ensures value { result ≡ year_of day }
    ensures range { result < 9_999 }
{
    let year = year_from_march(day);
    if month_from_march(day_of_year(day)) > 12 {
        year + 1
    } else {
        year
    }
}

fn month_of(day: u64) -> u64
    requires { day ≤ 803_473 }
    ensures value { result ≡ month_of day }
    ensures range { result < 15 }
{
    let month = month_from_march(day_of_year(day));
    if month > 12 { month - 12 } else { month }
}
