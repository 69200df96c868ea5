//! When activities begin and end, taken together.

ghost use Rattle.std.specs.Prelude.{◌≡◌, ◌<◌, All, pos};
ghost use Rattle.tail_book.specs.Lookup.{activities};
ghost use Rattle.tail_book.specs.inside.Sound.{IsMoment};
ghost use Rattle.tail_book.specs.declared.limits.TheConstants.{LAST_MOMENT};
ghost use Rattle.shortage_report.specs.Spans.{earliest_start, latest_end, latest_start};

use tail_book::limits::LAST_MOMENT;
use tail_book::{Book, end_of, start_of};

/// The earliest start of these activities.
pub fn earliest_start(book: &Book, list: &[u32]) -> i64
    requires { All (λ a. a < activities book.now) list.now }
    ensures value { result ≡ earliest_start book.now LAST_MOMENT list.now }
    ensures range { IsMoment result }
{
    let mut earliest = LAST_MOMENT;
    for a in list {
        earliest = earliest.min(start_of(book, *a));
    }
    earliest
}

/// The latest start of these activities.
pub fn latest_start(book: &Book, list: &[u32]) -> i64
    requires { All (λ a. a < activities book.now) list.now }
    ensures value { result ≡ latest_start book.now (pos 0) list.now }
    ensures range { IsMoment result }
{
    let mut latest = 0;
    for a in list {
        latest = latest.max(start_of(book, *a));
    }
    latest
}

/// The latest end of these activities.
pub fn latest_end(book: &Book, list: &[u32]) -> i64
    requires { All (λ a. a < activities book.now) list.now }
    ensures value { result ≡ latest_end book.now (pos 0) list.now }
    ensures range { IsMoment result }
{
    let mut latest = 0;
    for a in list {
        latest = latest.max(end_of(book, *a));
    }
    latest
}
