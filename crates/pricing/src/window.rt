//! Windows: stays at an airport that are alike in what they cost and in what they clear.
//!
//! Between the moments at which a band ends or a counter's stop is reached, a longer stay changes nothing. So labels that
//! wait at an airport can be compared once and for all, as they stand at the beginning of a window.

ghost use Rattle.std.specs.Prelude.{◌≡◌, ◌-ℤ◌, if◌then◌else◌, pos};
ghost use Rattle.tail_book.specs.declared.limits.TheConstants.{COUNT_LIMIT};
ghost use Rattle.tail_book.specs.Ranges.{IsWithin};
ghost use Rattle.tail_book.specs.inside.Sound.{IsMoment};
ghost use Rattle.pricing.specs.inside.Lines.{key_by};

use tail_book::CounterKind;
use turn_rules::NumberSet;

/// Stays from `lo` minutes up to but not including `hi`.
#[derive(Clone, Copy, Debug)]
pub struct Window {
    pub lo: i64,
    pub hi: i64,
    /// Whether no longer stay costs more.
    pub lasting: bool,
    /// The counters that a stay of `lo` minutes clears.
    pub cleared: NumberSet,
}

/// A counter of a kind while its aircraft waits: days as the value less the moment of arrival.
fn key_by(kind: CounterKind, arrival: i64, value: i64) -> i64
    requires value { IsWithin (pos 0) COUNT_LIMIT value }
    requires arrival { IsMoment arrival }
    ensures { result ≡ key_by kind arrival value }
{
    match kind {
        CounterKind::Minutes => value,
        CounterKind::Landings => value,
        CounterKind::Days => value - arrival,
    }
}

/// A counter while its aircraft waits, and 0 where the stay clears it.
pub fn key_one(kind: CounterKind, cleared: bool, arrival: i64, value: i64) -> i64
    requires value { IsWithin (pos 0) COUNT_LIMIT value }
    requires arrival { IsMoment arrival }
    ensures { result ≡ (if cleared then pos 0 else key_by kind arrival value) }
{
    if cleared {
        0
    } else {
        key_by(kind, arrival, value)
    }
}

/// The moment of arrival with its sign turned, where it counts.
pub fn stamp(lasting: bool, arrival: i64) -> i64
    requires { IsMoment arrival }
    ensures { result ≡ (if lasting then pos 0 else pos 0 -ℤ arrival) }
{
    if lasting { 0 } else { 0 - arrival }
}
