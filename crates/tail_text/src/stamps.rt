//! Moments as the tables write them, `YYYY-MM-DDTHH:MM`.
//!
//! The shape is tested first, place by place, and then the clock and the day; the day's number comes from the civil
//! calendar. A text has one reading, since each part has a fixed place and width.

ghost use Rattle.std.specs.Prelude.{◌≡◌, ◌<◌, ◌≤◌, length, pos, IfOk, IfSome};
ghost use Rattle.jiff_core.specs.Calendar.{IsBetween};
ghost use Rattle.tail_text.specs.Stamp.{stamp_of, day_in, day_number, has_date_shape, moment_at};

use crate::bad::Bad;
use crate::clocks::minutes_at;
use crate::pairs::{are_digits_at, pair_at};
use jiff::civil::Date;
use tail_book::limits::DAY;

/// A moment as `YYYY-MM-DDTHH:MM` of the years 1970 to 2199, in minutes since 1970-01-01T00:00 UTC. Any other text is
/// `Bad`.
pub fn stamp(text: &[u8]) -> Result<i64, Bad>
    ensures value { result ≡ stamp_of text.now }
    ensures range { IfOk result (IsBetween (pos 0) (pos 120_968_639)) }
{
    if text.len() != 16 || text[10] != b'T' {
        return Err(Bad);
    }
    moment_at(day_in(text), minutes_at(text, 11))
}

fn moment_at(day: Option<i32>, minutes: Option<u16>) -> Result<i64, Bad>
    requires days { IfSome day (IsBetween (pos 0) (pos 84_005)) }
    requires minutes { IfSome minutes (λ m. m ≤ 1439) }
    ensures value { result ≡ moment_at day minutes }
    ensures range { IfOk result (IsBetween (pos 0) (pos 120_968_639)) }
{
    match (day, minutes) {
        (Some(day), Some(minutes)) => Ok(day as i64 * DAY + minutes as i64),
        _ => Err(Bad),
    }
}

// The number of the day that the first ten bytes write.
fn day_in(text: &[u8]) -> Option<i32>
    requires { 10 ≤ length text.now }
    ensures value { result ≡ day_in text.now }
    ensures range { IfSome result (IsBetween (pos 0) (pos 84_005)) }
{
    if !has_date_shape(text) {
        return None;
    }
    let year = pair_at(text, 0) * 100 + pair_at(text, 2);
    day_number(year, pair_at(text, 5), pair_at(text, 8))
}

fn has_date_shape(text: &[u8]) -> bool
    requires { 10 ≤ length text.now }
    ensures { result ≡ has_date_shape text.now }
{
    are_digits_at(text, 0)
        && are_digits_at(text, 2)
        && text[4] == b'-'
        && are_digits_at(text, 5)
        && text[7] == b'-'
        && are_digits_at(text, 8)
}

fn day_number(year: u16, month: u16, day: u16) -> Option<i32>
    requires { (year < 10_000) × (month < 100) × (day < 100) }
    ensures { result ≡ day_number year month day }
{
    if year < 1970 || year > 2199 {
        return None;
    }
    match Date::new(year as i16, month as i8, day as i8) {
        Ok(date) => Some(date.to_plain().to_unix_epoch_day()),
        Err(_) => None,
    }
}
