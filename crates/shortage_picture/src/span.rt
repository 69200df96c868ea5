//! The days on which a shortage lies: from the earliest start of its activities to their latest end.

ghost use Rattle.std.specs.Prelude.{◌≡◌, ◌<◌, All, pos};
ghost use Rattle.tail_book.specs.Lookup.{activities};
ghost use Rattle.tail_book.specs.inside.Sound.{IsMoment};
ghost use Rattle.tail_book.specs.declared.limits.TheConstants.{LAST_MOMENT};
ghost use Rattle.shortage_reader.specs.inside.OfBook.{IsToldOf};
ghost use Rattle.shortage_picture.specs.Span.{day_of, days_of, earliest_start, first_day, last_day, latest_end};

use plan_picture::pieces::{DAY_WIDTH, days_shown, first_moment, minutes_to};
use shortage_reader::ToldShortage;
use tail_book::limits::LAST_MOMENT;
use tail_book::{Book, end_of, start_of};

// The earliest start of activities.
fn earliest_start(book: &Book, list: &[u32]) -> i64
    requires { All (λ a. a < activities book.now) list.now }
    ensures value { result ≡ earliest_start book.now LAST_MOMENT list.now }
    ensures range { IsMoment result }
{
    let mut earliest = LAST_MOMENT;
    for a in list {
        earliest = earliest.min(start_of(book, *a));
    }
    earliest
}

// The latest end of activities.
fn latest_end(book: &Book, list: &[u32]) -> i64
    requires { All (λ a. a < activities book.now) list.now }
    ensures value { result ≡ latest_end book.now (pos 0) list.now }
    ensures range { IsMoment result }
{
    let mut latest = 0;
    for a in list {
        latest = latest.max(end_of(book, *a));
    }
    latest
}

// The day of a moment, counted from the picture's first.
fn day_of(book: &Book, moment: i64) -> u64
    requires { IsMoment moment }
    ensures value { result ≡ day_of book.now moment }
    ensures range { result < 1_000_000 }
{
    minutes_to(first_moment(book), moment) / DAY_WIDTH
}

/// The first day on which one of its activities lies, counted from the picture's first.
pub fn first_day(book: &Book, told: &ToldShortage) -> u64
    requires { IsToldOf book.now told.now }
    ensures value { result ≡ first_day book.now told.now }
    ensures range { result < 1_000_000 }
{
    let earliest = earliest_start(book, &told.asked);
    day_of(book, earliest.min(earliest_start(book, &told.brought)))
}

// The last day on which one of its activities lies.
fn last_day(book: &Book, told: &ToldShortage) -> u64
    requires { IsToldOf book.now told.now }
    ensures value { result ≡ last_day book.now told.now }
    ensures range { result < 1_000_000 }
{
    let latest = latest_end(book, &told.asked);
    day_of(book, latest.max(latest_end(book, &told.brought)))
}

/// How many days there are from the first to the last of them.
pub fn days_of(book: &Book, told: &ToldShortage) -> u64
    requires { IsToldOf book.now told.now }
    ensures value { result ≡ days_of book.now told.now }
    ensures range { result < 100_000 }
{
    let days = last_day(book, told).saturating_sub(first_day(book, told)) + 1;
    days.min(days_shown(book))
}
