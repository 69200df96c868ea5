//! Moments as a planner reads them: days of the Gregorian calendar, hours and minutes, in UTC.
//!
//! Years are counted from March on, so that the leap day is the last of its year. Days and months then follow from
//! divisions alone.

ghost use Rattle.std.specs.Prelude.{◌≡◌, ◌<◌, ◌++◌, OnOk};
ghost use Rattle.plan_picture.specs.Calendar.{date_text, day_in_month, day_of_era, day_of_year, moment_text, month_from_march, month_in_year, two_digits, year_of, year_of_era};

use tail_book::Memory;
use tail_text::Line;

/// Appends the date and the time of day of a moment: minutes since 1970-01-01T00:00 UTC.
pub fn add_moment(minute: u64, line: &mut Line) -> Result<(), Memory>
    requires { minute < 10_000_000_000 }
    ensures { OnOk result (line.new ≡ line.old ++ moment_text minute) }
{
    add_date(minute / 1440, line)?;
    line.text(b" ")?;
    add_two_digits(minute % 1440 / 60, line)?;
    line.text(b":")?;
    add_two_digits(minute % 60, line)
}

/// Appends the date of a day, counted from 1970-01-01.
pub fn add_date(day: u64, line: &mut Line) -> Result<(), Memory>
    requires { day < 10_000_000 }
    ensures { OnOk result (line.new ≡ line.old ++ date_text day) }
{
    let of_year = day_of_year(day_of_era(day));
    line.unsigned(year_of(day))?;
    line.text(b"-")?;
    add_two_digits(month_in_year(month_from_march(of_year)), line)?;
    line.text(b"-")?;
    add_two_digits(day_in_month(of_year), line)
}

fn add_two_digits(n: u64, line: &mut Line) -> Result<(), Memory>
    ensures { OnOk result (line.new ≡ line.old ++ two_digits n) }
{
    line.unsigned(n / 10)?;
    line.unsigned(n % 10)
}

fn day_of_era(day: u64) -> u64
    requires { day < 10_000_000 }
    ensures value { result ≡ day_of_era day }
    ensures range { result < 146_097 }
{
    (day + 719_468) % 146_097
}

fn year_of_era(e: u64) -> u64
    requires { e < 146_097 }
    ensures value { result ≡ year_of_era e }
    ensures range { result < 1000 }
{
    ((e.saturating_sub(e / 1460) + e / 36_524).saturating_sub(e / 146_096)) / 365
}

fn day_of_year(e: u64) -> u64
    requires { e < 146_097 }
    ensures value { result ≡ day_of_year e }
    ensures range { result < 146_097 }
{
    let year = year_of_era(e);
    e.saturating_sub((365 * year + year / 4).saturating_sub(year / 100))
}

fn month_from_march(d: u64) -> u64
    requires { d < 146_097 }
    ensures value { result ≡ month_from_march d }
    ensures range { result < 10_000 }
{
    (5 * d + 2) / 153
}

fn year_of(day: u64) -> u64
    requires { day < 10_000_000 }
    ensures { result ≡ year_of day }
{
    let era_day = day_of_era(day);
    let month = month_from_march(day_of_year(era_day));
    let later = if month < 10 { 0 } else { 1 };
    (day + 719_468) / 146_097 * 400 + year_of_era(era_day) + later
}

fn month_in_year(m: u64) -> u64
    requires { m < 10_000 }
    ensures { result ≡ month_in_year m }
{
    if m < 10 { m + 3 } else { m - 9 }
}

fn day_in_month(d: u64) -> u64
    requires { d < 146_097 }
    ensures { result ≡ day_in_month d }
{
    d.saturating_sub((153 * month_from_march(d) + 2) / 5) + 1
}
