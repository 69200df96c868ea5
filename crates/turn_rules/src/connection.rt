//! What may come directly after what: the links of the connection network.
//!
//! Place and time are settled first, by a few reads. Only where both fit are the two activities' permissions
//! tested, each at the cost of `allowed`.

ghost use Rattle.std.specs.Prelude.{◌≡◌, ◌<◌, ◌↔◌, ◌+ℤ◌, ◌-ℤ◌, ◌≤ℤ◌, IsTrue, nat_eq, pos, length};
ghost use Rattle.tail_book.specs.declared.limits.TheConstants.{DAY, LAST_MOMENT};
ghost use Rattle.tail_book.specs.Lookup.{activities, aircraft, from_port, start_of};
ghost use Rattle.tail_book.specs.Numbers.{int_le};
ghost use Rattle.tail_book.specs.Link.{IsLink, port, free_from, gap, turn_time, is_connected};
ghost use Rattle.tail_book.specs.Ranges.{IsWithin};
ghost use Rattle.tail_book.specs.inside.Sound.{IsMoment};
ghost use Rattle.tail_book.specs.LegalTests.{is_allowed_at, is_link};
ghost use Rattle.tail_book.specs.Place.{IsPlaceOf};
ghost use Rattle.turn_rules.specs.inside.FreeBefore.{IsFreeBefore};

use crate::permission::allowed;
use tail_book::laws::link_decides;
use tail_book::{Book, Place, port_turn, start_of, type_turn};

/// The airport where an aircraft is.
pub fn port(book: &Book, k: u32, from: Place) -> u32
    requires aircraft { k < aircraft book.now }
    requires place { IsPlaceOf book.now from }
    ensures value { result ≡ port book.now k from }
    ensures range { result < length book.now.rules.airports }
{
    match from {
        Place::Carry => book.tails[k as usize].at,
        Place::After(x) => book.activities[x as usize].to,
    }
}

/// The moment from which an aircraft is free at its place, in minutes since 1970-01-01T00:00 UTC.
pub fn free_from(book: &Book, k: u32, from: Place) -> i64
    requires aircraft { k < aircraft book.now }
    requires place { IsPlaceOf book.now from }
    ensures value { result ≡ free_from book.now k from }
    ensures range { IsMoment result }
{
    match from {
        Place::Carry => book.tails[k as usize].ready,
        Place::After(x) => book.activities[x as usize].end,
    }
}

/// Minutes on the ground before an activity starts; less than 0 where it starts too early.
pub fn gap(book: &Book, k: u32, from: Place, b: u32) -> i64
    requires aircraft { k < aircraft book.now }
    requires place { IsPlaceOf book.now from }
    requires activity { b < activities book.now }
    ensures value { result ≡ gap book.now k from b }
    ensures range { IsWithin (pos 0 -ℤ LAST_MOMENT) LAST_MOMENT result }
{
    start_of(book, b) - free_from(book, k, from)
}

/// The least minutes on the ground between two activities.
fn turn_between(book: &Book, k: u32, x: u32, b: u32) -> i64
    requires aircraft { k < aircraft book.now }
    requires before { x < activities book.now }
    requires after { b < activities book.now }
    ensures value { result ≡ turn_time book.now k (Place.After x) b }
    ensures range { IsWithin (pos 0) DAY result }
{
    if book.activities[x as usize].flight && book.activities[b as usize].flight {
        type_turn(book, k).max(port_turn(book, book.activities[x as usize].to))
    } else {
        0
    }
}

/// The least minutes on the ground: the turn between two flights, and else none.
pub fn turn(book: &Book, k: u32, from: Place, b: u32) -> i64
    requires aircraft { k < aircraft book.now }
    requires place { IsPlaceOf book.now from }
    requires activity { b < activities book.now }
    ensures value { result ≡ turn_time book.now k from b }
    ensures range { IsWithin (pos 0) DAY result }
{
    match from {
        Place::Carry => 0,
        Place::After(x) => turn_between(book, k, x, b),
    }
}

/// Whether an aircraft may fly what it comes from; the carry-in asks nothing.
fn allowed_at(book: &Book, k: u32, from: Place) -> bool
    requires aircraft { k < aircraft book.now }
    requires place { IsPlaceOf book.now from }
    ensures { result ≡ is_allowed_at book.now k from }
{
    match from {
        Place::Carry => true,
        Place::After(x) => allowed(book, k, x),
    }
}

/// Whether an activity starts at the airport of a place.
fn is_there(book: &Book, k: u32, from: Place, b: u32) -> bool
    requires aircraft { k < aircraft book.now }
    requires place { IsPlaceOf book.now from }
    requires activity { b < activities book.now }
    ensures { result ≡ nat_eq (port book.now k from) (from_port book.now b) }
{
    port(book, k, from) == book.activities[b as usize].from
}

/// The earliest moment at which an activity may start after a place, in minutes since 1970-01-01T00:00 UTC: the turn is
/// over then.
pub fn earliest_start(book: &Book, k: u32, from: Place, b: u32) -> i64
    requires aircraft { k < aircraft book.now }
    requires place { IsPlaceOf book.now from }
    requires activity { b < activities book.now }
    ensures value { result ≡ free_from book.now k from +ℤ turn_time book.now k from b }
    ensures range { IsWithin (pos 0) (pos 120_970_079) result }
    ensures forward { free_from book.now k from ≤ℤ result }
{
    free_from(book, k, from) + turn(book, k, from, b)
}

/// Whether an activity starts no earlier than the turn after a place.
fn is_in_time(book: &Book, k: u32, from: Place, b: u32) -> bool
    requires aircraft { k < aircraft book.now }
    requires place { IsPlaceOf book.now from }
    requires activity { b < activities book.now }
    ensures value { result ≡ int_le (free_from book.now k from +ℤ turn_time book.now k from b) (start_of book.now b) }
    ensures forward { IsTrue result → IsFreeBefore book.now k from b }
{
    earliest_start(book, k, from, b) <= start_of(book, b)
}

/// Whether an activity starts where an aircraft is, and no earlier than the turn after its place.
#[tactic(auto, unfolding(tail_book::specs::Link::is_connected))]
pub fn connected(book: &Book, k: u32, from: Place, b: u32) -> bool
    requires aircraft { k < aircraft book.now }
    requires place { IsPlaceOf book.now from }
    requires activity { b < activities book.now }
    ensures value { result ≡ is_connected book.now k from b }
    ensures forward { IsTrue result → IsFreeBefore book.now k from b }
{
    is_there(book, k, from, b) && is_in_time(book, k, from, b)
}

/// Whether an activity may come directly after a place of an aircraft.
#[tactic(auto, unfolding(tail_book::specs::LegalTests::is_link))]
pub fn link(book: &Book, k: u32, from: Place, b: u32) -> bool
    requires aircraft { k < aircraft book.now }
    requires place { IsPlaceOf book.now from }
    requires activity { b < activities book.now }
    ensures means { IsTrue result ↔ IsLink book.now k from b }
    ensures tests { result ≡ is_link book.now k from b }
    ensures forward { IsTrue result → IsFreeBefore book.now k from b }
{
    link_decides();
    connected(book, k, from, b) && allowed_at(book, k, from) && allowed(book, k, b)
}
