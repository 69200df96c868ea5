//! The parts of a rule of local time as a text: names, offsets, and days of the year.
//!
//! Each part is read from its place on, and says at which place it ends. Behind the end of a text stands byte 0, which
//! no part has, so no place has to be compared with the text's length. A name is as long as it can be: behind a name
//! there is never a letter.

ghost use Rattle.std.specs.Prelude.{◌≡◌, ◌+◌, ◌<◌, ◌≤◌, IfOk, pos, slice_index, true};
ghost use Rattle.tail_book.specs.Ranges.{IsWithin};
ghost use Rattle.tail_book.specs.declared.limits.TheConstants.{DAY};
ghost use Rattle.tail_book.specs.inside.Sound.{IsOffset};
ghost use Rattle.fleet_rules.specs.ZoneParts.{clock_part, digit_at, has_rule_days, is_digit_at, is_digit_from, is_mark_at, is_name_mark, marks_end, minutes_behind, name_end, offset_part, rule_part, short_number_at, time_part};
ghost use Rattle.fleet_rules.specs.inside.Zone.{IsDayRule};

use crate::DayRule;
use tail_book::limits::OFFSET_LIMIT;
use tail_text::Bad;

/// The longest that an offset is, and the latest time of a day, in minutes.
const OFFSET_MOST: u16 = OFFSET_LIMIT as u16;

const TIME_MOST: u16 = 1_440;

/// A number that a part of a text writes, and the place behind that part.
#[derive(Clone, Copy)]
pub(crate) struct Part {
    pub value: u16,
    pub next: usize,
}

/// The minutes to add to UTC that an offset writes, and the place behind it.
#[derive(Clone, Copy)]
pub(crate) struct OffsetPart {
    pub minutes: i64,
    pub next: usize,
}

/// The day of the year that a rule writes, and the place behind it.
#[derive(Clone, Copy)]
pub(crate) struct RulePart {
    pub rule: DayRule,
    pub next: usize,
}

/// The byte at a place, and 0 behind the end.
pub(crate) fn byte_at(text: &[u8], at: usize) -> u8
    ensures { result ≡ slice_index text.now at }
{
    if at < text.len() { text[at] } else { 0 }
}

fn is_digit_at(text: &[u8], at: usize) -> bool
    ensures { result ≡ is_digit_at text.now at }
{
    byte_at(text, at).is_ascii_digit()
}

fn digit_at(text: &[u8], at: usize) -> u16
    requires { is_digit_at text.now at ≡ true }
    ensures value { result ≡ digit_at text.now at }
    ensures small { result ≤ 9 }
{
    (byte_at(text, at) - b'0') as u16
}

// Whether a digit from `least` to `most` stands there.
fn is_digit_from(least: u16, most: u16, text: &[u8], at: usize) -> bool
    ensures { result ≡ is_digit_from least most text.now at }
{
    is_digit_at(text, at) && least <= digit_at(text, at) && digit_at(text, at) <= most
}

// A number of one or two digits.
#[tactic(auto, unfolding(crate::specs::ZoneParts::short_number_at))]
fn short_number_at(text: &[u8], at: usize) -> Result<Part, Bad>
    requires { at < 100 }
    ensures value { result ≡ short_number_at text.now at }
    ensures small { IfOk result (λ part. part.value ≤ 99) }
    ensures near { IfOk result (λ part. part.next ≤ at + 2) }
{
    if !is_digit_at(text, at) {
        return Err(Bad);
    }
    let first = digit_at(text, at);
    if !is_digit_at(text, at + 1) {
        return Ok(Part {
            value: first,
            next: at + 1,
        });
    }
    Ok(Part {
        value: first * 10 + digit_at(text, at + 1),
        next: at + 2,
    })
}

// The minutes of an hour behind a colon, and none where no colon stands there.
#[tactic(auto, unfolding(crate::specs::ZoneParts::minutes_behind))]
fn minutes_behind(text: &[u8], at: usize) -> Result<Part, Bad>
    requires { at < 102 }
    ensures value { result ≡ minutes_behind text.now at }
    ensures small { IfOk result (λ part. part.value ≤ 59) }
    ensures near { IfOk result (λ part. part.next ≤ at + 3) }
{
    if byte_at(text, at) != b':' {
        return Ok(Part { value: 0, next: at });
    }
    if !is_digit_from(0, 5, text, at + 1) || !is_digit_at(text, at + 2) {
        return Err(Bad);
    }
    Ok(Part {
        value: digit_at(text, at + 1) * 10 + digit_at(text, at + 2),
        next: at + 3,
    })
}

// Hours, and minutes where they are told, of at most so many minutes in all.
#[tactic(auto, unfolding(crate::specs::ZoneParts::clock_part))]
fn clock_part(most: u16, text: &[u8], at: usize) -> Result<Part, Bad>
    requires { at < 100 }
    ensures value { result ≡ clock_part most text.now at }
    ensures small { IfOk result (λ part. part.value ≤ most) }
    ensures near { IfOk result (λ part. part.next ≤ at + 5) }
{
    let hours = short_number_at(text, at)?;
    let minutes = minutes_behind(text, hours.next)?;
    let value = hours.value * 60 + minutes.value;
    if value > most {
        return Err(Bad);
    }
    Ok(Part {
        value,
        next: minutes.next,
    })
}

/// An offset, which is written as the way from local time to UTC: it is positive west of Greenwich.
#[tactic(auto, unfolding(crate::specs::ZoneParts::offset_part))]
pub(crate) fn offset_part(text: &[u8], at: usize) -> Result<OffsetPart, Bad>
    requires { at < 90 }
    ensures value { result ≡ offset_part text.now at }
    ensures range { IfOk result (λ part. IsOffset part.minutes) }
    ensures near { IfOk result (λ part. part.next ≤ at + 6) }
{
    if byte_at(text, at) == b'-' {
        let east = clock_part(OFFSET_MOST, text, at + 1)?;
        return Ok(OffsetPart {
            minutes: east.value as i64,
            next: east.next,
        });
    }
    let begins = if byte_at(text, at) == b'+' {
        at + 1
    } else {
        at
    };
    let west = clock_part(OFFSET_MOST, text, begins)?;
    Ok(OffsetPart {
        minutes: 0 - west.value as i64,
        next: west.next,
    })
}

fn is_name_mark(bracketed: bool, byte: u8) -> bool
    ensures { result ≡ is_name_mark bracketed byte }
{
    byte.is_ascii_alphabetic()
        || (bracketed && (byte.is_ascii_digit() || byte == b'+' || byte == b'-'))
}

fn is_mark_at(bracketed: bool, text: &[u8], at: usize) -> bool
    ensures { result ≡ is_mark_at bracketed text.now at }
{
    is_name_mark(bracketed, byte_at(text, at))
}

// The place behind the marks of a name, of which there are three to six.
#[tactic(auto, unfolding(crate::specs::ZoneParts::marks_end))]
fn marks_end(bracketed: bool, text: &[u8], at: usize) -> Result<usize, Bad>
    requires { at < 100 }
    ensures value { result ≡ marks_end bracketed text.now at }
    ensures near { IfOk result (λ end. end ≤ at + 6) }
{
    if !is_mark_at(bracketed, text, at)
        || !is_mark_at(bracketed, text, at + 1)
        || !is_mark_at(bracketed, text, at + 2)
    {
        return Err(Bad);
    }
    if !is_mark_at(bracketed, text, at + 3) {
        return Ok(at + 3);
    }
    if !is_mark_at(bracketed, text, at + 4) {
        return Ok(at + 4);
    }
    if !is_mark_at(bracketed, text, at + 5) {
        return Ok(at + 5);
    }
    Ok(at + 6)
}

/// The place behind the name that stands there.
#[tactic(auto, unfolding(crate::specs::ZoneParts::name_end))]
pub(crate) fn name_end(text: &[u8], at: usize) -> Result<usize, Bad>
    requires { at < 90 }
    ensures value { result ≡ name_end text.now at }
    ensures near { IfOk result (λ end. end ≤ at + 8) }
{
    if byte_at(text, at) != b'<' {
        return marks_end(false, text, at);
    }
    let end = marks_end(true, text, at + 1)?;
    if byte_at(text, end) != b'>' {
        return Err(Bad);
    }
    Ok(end + 1)
}

// Whether a point, a week, a point and a weekday stand there.
fn has_rule_days(text: &[u8], at: usize) -> bool
    requires { at < 100 }
    ensures { result ≡ has_rule_days text.now at }
{
    byte_at(text, at) == b'.'
        && is_digit_from(1, 5, text, at + 1)
        && byte_at(text, at + 2) == b'.'
        && is_digit_from(0, 6, text, at + 3)
}

// The time of day behind a slash, and two o'clock where no slash stands there.
#[tactic(auto, unfolding(crate::specs::ZoneParts::time_part))]
fn time_part(text: &[u8], at: usize) -> Result<Part, Bad>
    requires { at < 99 }
    ensures value { result ≡ time_part text.now at }
    ensures small { IfOk result (λ part. part.value ≤ 1440) }
    ensures near { IfOk result (λ part. part.next ≤ at + 6) }
{
    if byte_at(text, at) == b'/' {
        clock_part(TIME_MOST, text, at + 1)
    } else {
        Ok(Part {
            value: 120,
            next: at,
        })
    }
}

/// A rule: a month, a week, a weekday, and a time of that day where it is told.
#[tactic(auto, unfolding(crate::specs::ZoneParts::rule_part))]
pub(crate) fn rule_part(text: &[u8], at: usize) -> Result<RulePart, Bad>
    requires { at < 90 }
    ensures value { result ≡ rule_part text.now at }
    ensures sound { IfOk result (λ part. IsDayRule part.rule) }
    ensures near { IfOk result (λ part. part.next ≤ at + 13) }
{
    if byte_at(text, at) != b'M' {
        return Err(Bad);
    }
    let month = short_number_at(text, at + 1)?;
    if month.value < 1 || month.value > 12 || !has_rule_days(text, month.next) {
        return Err(Bad);
    }
    let time = time_part(text, month.next + 4)?;
    let rule = DayRule {
        month: month.value as u8,
        week: digit_at(text, month.next + 1) as u8,
        weekday: digit_at(text, month.next + 3) as u8,
        time: time.value as i64,
    };
    Ok(RulePart {
        rule,
        next: time.next,
    })
}
