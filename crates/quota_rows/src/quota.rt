//! Quotas, and which connections belong to one: those that are short, at its airport and on its day. The airport is asked
//! first, since it differs most often, and then it takes a division and a subtraction.

ghost use Rattle.std.specs.Prelude.{◌≡◌, ◌<◌, ◌↔◌, ◌-ℤ◌, IsTrue, int_lt};
ghost use Rattle.std.specs.Ordering.{int_eq};
ghost use Rattle.tail_book.specs.Lookup.{activities, end_of, start_of};
ghost use Rattle.tail_book.specs.Place.{IsPlaceOf};
ghost use Rattle.quota_rows.specs.Belongs.{Belongs, belongs, belongs_at, day_of};

use crate::laws::belongs_decides;
use tail_book::limits::DAY;
use tail_book::{Book, Place, end_of, start_of};

/// How many short connections an airport takes on a day.
#[derive(Clone, Copy, PartialEq, Eq, Debug)]
pub struct Quota {
    /// The airport's number in the book.
    pub airport: u32,
    /// The day by UTC, as days after 1970-01-01.
    pub day: i64,
    /// The least minutes on the ground that are not short.
    pub below: i64,
    /// The most connections of a plan that may belong to it.
    pub most: u64,
}

/// The most quotas of a table.
pub const QUOTA_LIMIT: usize = 50;

// Whether an activity starts on a quota's day.
fn is_on_day(book: &Book, quota: &Quota, b: u32) -> bool
    requires { b < activities book.now }
    ensures { result ≡ int_eq (day_of (start_of book.now b)) quota.now.day }
{
    start_of(book, b).div_euclid(DAY) == quota.day
}

// Whether a connection is shorter than a quota asks for.
fn is_short(book: &Book, quota: &Quota, a: u32, b: u32) -> bool
    requires before { a < activities book.now }
    requires after { b < activities book.now }
    ensures { result ≡ int_lt (start_of book.now b -ℤ end_of book.now a) quota.now.below }
{
    start_of(book, b) - end_of(book, a) < quota.below
}

// The test of `belongs`.
#[tactic(auto, unfolding(crate::specs::Belongs::belongs))]
fn belongs_by(book: &Book, quota: &Quota, a: u32, b: u32) -> bool
    requires before { a < activities book.now }
    requires after { b < activities book.now }
    ensures { result ≡ belongs book.now quota.now a b }
{
    book.activities[b as usize].from == quota.airport
        && is_on_day(book, quota, b)
        && is_short(book, quota, a, b)
}

/// Whether the connection from activity `a` to activity `b` belongs to a quota: `b` starts at its airport, on its day by
/// UTC, and less than `below` minutes after the end of `a`.
pub fn belongs(book: &Book, quota: &Quota, a: u32, b: u32) -> bool
    requires before { a < activities book.now }
    requires after { b < activities book.now }
    ensures exact { IsTrue result ↔ Belongs book.now quota.now a b }
    ensures test { result ≡ belongs book.now quota.now a b }
{
    belongs_decides();
    belongs_by(book, quota, a, b)
}

/// The same of the connection from a place: one from a carry-in belongs to no quota.
pub fn belongs_at(book: &Book, quota: &Quota, from: Place, b: u32) -> bool
    requires place { IsPlaceOf book.now from }
    requires after { b < activities book.now }
    ensures { result ≡ belongs_at book.now quota.now from b }
{
    match from {
        Place::Carry => false,
        Place::After(a) => belongs(book, quota, a, b),
    }
}
