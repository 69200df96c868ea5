//! What a book has at a number, each by a read or two: when an activity starts and ends, and the turns.

ghost use Rattle.std.specs.Prelude.{◌≡◌, ◌<◌, ◌≤ℤ◌, pos, length};
ghost use Rattle.tail_book.specs.declared.limits.TheConstants.{DAY};
ghost use Rattle.tail_book.specs.Lookup.{activities, aircraft, kind_of, start_of, end_of, type_turn, port_turn};
ghost use Rattle.tail_book.specs.Ranges.{IsWithin};
ghost use Rattle.tail_book.specs.inside.Sound.{IsMoment};

use crate::Book;

/// The moment at which an activity starts, in minutes since 1970-01-01T00:00 UTC.
pub fn start_of(book: &Book, a: u32) -> i64
    requires { a < activities book.now }
    ensures value { result ≡ start_of book.now a }
    ensures range { IsMoment result }
{
    book.activities[a as usize].start
}

/// The moment at which an activity ends, in minutes since 1970-01-01T00:00 UTC.
pub fn end_of(book: &Book, a: u32) -> i64
    requires { a < activities book.now }
    ensures value { result ≡ end_of book.now a }
    ensures range { IsMoment result }
    ensures forward { start_of book.now a ≤ℤ result }
{
    book.activities[a as usize].end
}

/// The turn of an aircraft's type, in minutes.
pub fn type_turn(book: &Book, k: u32) -> i64
    requires { k < aircraft book.now }
    ensures value { result ≡ type_turn book.now (kind_of book.now k) }
    ensures range { IsWithin (pos 0) DAY result }
{
    book.rules.kinds[book.tails[k as usize].kind as usize].turn
}

/// The turn of an airport, in minutes.
pub fn port_turn(book: &Book, port: u32) -> i64
    requires { port < length book.now.rules.airports }
    ensures value { result ≡ port_turn book.now port }
    ensures range { IsWithin (pos 0) DAY result }
{
    book.rules.airports[port as usize].turn
}
