//! Local time: how far the clocks of an airport are from UTC.
//!
//! The moments of an airport's changes rise, so the last change at or before a moment is found by halving their list.

ghost use Rattle.std.specs.Prelude.{◌≡◌, ◌<◌, ◌≤◌, ◌<ℤ◌, AllPairs, length, true, false};
ghost use Rattle.std.specs.List.Sorted.{IsPartitionPoint};
ghost use Rattle.tail_book.specs.Lookup.{offset_after, offset_at};
ghost use Rattle.tail_book.specs.Numbers.{int_le};
ghost use Rattle.tail_book.specs.inside.Sound.{IsAirport, IsOffset};

use tail_book::laws::every_book_is_sound;
use tail_book::{Airport, Book, Change};

/// The minutes from UTC to an airport's local time at a moment in minutes since 1970-01-01T00:00 UTC.
pub fn local_offset(book: &Book, airport: u32, t: i64) -> i64
    requires { airport < length book.now.rules.airports }
    ensures value { result ≡ offset_at book.now airport t }
    ensures range { IsOffset result }
{
    every_book_is_sound(book);
    offset_of(&book.rules.airports[airport as usize], t)
}

fn offset_of(airport: &Airport, t: i64) -> i64
    requires { IsAirport airport.now }
    ensures value { result ≡ offset_after airport.now.offset airport.now.changes t }
    ensures range { IsOffset result }
{
    let before = changes_by(&airport.changes, t);
    if before == 0 {
        airport.offset
    } else {
        airport.changes[before - 1].offset
    }
}

// How many of the changes come at or before a moment.
fn changes_by(changes: &[Change], t: i64) -> usize
    requires { AllPairs (λ a b. a.at <ℤ b.at) changes.now }
    ensures within { result ≤ length changes.now }
    ensures parts { IsPartitionPoint (λ c. int_le c.at t ≡ true) (λ c. int_le c.at t ≡ false) changes.now result }
{
    changes.partition_point(|change| change.at <= t)
}
