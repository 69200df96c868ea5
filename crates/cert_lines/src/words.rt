//! The numbers in a line.
//!
//! Each number has one spelling: no sign but a minus before a negative one, and no zero in front. They are read where
//! they stand in the text, within the limits of their kinds, and nothing is allocated.

ghost use Rattle.std.specs.Prelude.{◌≡◌, ◌<◌};
ghost use Rattle.cert_lines.specs.Words.{small, large, amount, value, negated, one_number, two_numbers, number_and_value, counters_in};
ghost use Rattle.cert_lines.specs.declared.cert_line.TheConstants.{VALUE_LIMIT};

use crate::cert_line::VALUE_LIMIT;
use branch_marks::Row;
use tail_book::limits::COUNTER_LIMIT;
use tail_text::{Parts, number};

/// A number of 32 bits: an aircraft, an activity, or how many there are.
pub fn small(word: &[u8]) -> Option<u32>
    ensures { result ≡ small word.now }
{
    match number(word, u32::MAX as u64) {
        Ok(n) => Some(n as u32),
        Err(_) => None,
    }
}

/// A number of 64 bits: a cost.
pub fn large(word: &[u8]) -> Option<u64>
    ensures { result ≡ large word.now }
{
    number(word, u64::MAX).ok()
}

/// A number of at most 2^61: a counter.
pub fn amount(word: &[u8]) -> Option<i64>
    ensures { result ≡ amount word.now }
{
    match number(word, VALUE_LIMIT) {
        Ok(n) => Some(n as i64),
        Err(_) => None,
    }
}

/// A number of absolute value at most 2^61: a weight, a dual or the value of a cover.
pub fn value(word: &[u8]) -> Option<i64>
    ensures { result ≡ value word.now }
{
    match word {
        [b'-', digits @ ..] => negated(digits),
        _ => amount(word),
    }
}

// The number below 0 that stands behind a minus.
fn negated(digits: &[u8]) -> Option<i64>
    ensures { result ≡ negated digits.now }
{
    match number(digits, VALUE_LIMIT) {
        Ok(0) => None,
        Ok(n) => Some(-(n as i64)),
        Err(_) => None,
    }
}

/// The one number that is left.
pub fn one_number(words: &mut Parts<'_>) -> Option<u32>
    ensures { result ≡ one_number words.old }
{
    match (words.take(), words.take()) {
        (Some(first), None) => small(first),
        _ => None,
    }
}

/// The two numbers that are left.
pub fn two_numbers(words: &mut Parts<'_>) -> Option<(u32, u32)>
    ensures { result ≡ two_numbers words.old }
{
    match (words.take(), words.take(), words.take()) {
        (Some(first), Some(second), None) => Some((small(first)?, small(second)?)),
        _ => None,
    }
}

/// The number and the value that are left.
pub fn number_and_value(words: &mut Parts<'_>) -> Option<(u32, i64)>
    ensures { result ≡ number_and_value words.old }
{
    match (words.take(), words.take(), words.take()) {
        (Some(first), Some(second), None) => Some((small(first)?, value(second)?)),
        _ => None,
    }
}

/// The counters that are left, of which a book has six at most.
pub fn counters_in(words: &mut Parts<'_>) -> Option<Row>
    ensures { result ≡ counters_in words.old }
{
    let mut values = [0i64; COUNTER_LIMIT];
    let mut count = 0;
    while let Some(word) = words.take() {
        if count >= COUNTER_LIMIT {
            return None;
        }
        values[count] = amount(word)?;
        count += 1;
    }
    Some(Row::new(&values[..count]))
}
