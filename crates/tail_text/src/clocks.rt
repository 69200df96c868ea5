//! Times of day, `HH:MM`, as minutes since midnight. Each has one spelling, since its two parts have fixed places and
//! widths; the shape is tested before the two numbers are read.

ghost use Rattle.std.specs.Prelude.{◌≡◌, ◌+◌, ◌<◌, ◌≤◌, length, pos, IfOk, IfSome};
ghost use Rattle.jiff_core.specs.Calendar.{IsBetween};
ghost use Rattle.tail_text.specs.Clock.{clock_of, minutes_at, minutes_of, has_clock_shape_at};

use crate::bad::Bad;
use crate::pairs::{are_digits_at, pair_at};

/// A time of day as `HH:MM`, in minutes since midnight. Any other text is `Bad`.
pub fn clock(text: &[u8]) -> Result<i64, Bad>
    ensures value { result ≡ clock_of text.now }
    ensures range { IfOk result (IsBetween (pos 0) (pos 1439)) }
{
    if text.len() != 5 {
        return Err(Bad);
    }
    match minutes_at(text, 0) {
        Some(minutes) => Ok(minutes as i64),
        None => Err(Bad),
    }
}

/// The minutes since midnight of the `HH:MM` that stands there.
pub fn minutes_at(text: &[u8], at: usize) -> Option<u16>
    requires { at + 4 < length text.now }
    ensures value { result ≡ minutes_at text.now at }
    ensures range { IfSome result (λ minutes. minutes ≤ 1439) }
{
    if !has_clock_shape_at(text, at) {
        return None;
    }
    minutes_of(pair_at(text, at), pair_at(text, at + 3))
}

fn minutes_of(hour: u16, minute: u16) -> Option<u16>
    ensures value { result ≡ minutes_of hour minute }
    ensures range { IfSome result (λ minutes. minutes ≤ 1439) }
{
    if hour > 23 || minute > 59 {
        return None;
    }
    Some(hour * 60 + minute)
}

fn has_clock_shape_at(text: &[u8], at: usize) -> bool
    requires { at + 4 < length text.now }
    ensures { result ≡ has_clock_shape_at text.now at }
{
    are_digits_at(text, at) && text[at + 2] == b':' && are_digits_at(text, at + 3)
}
