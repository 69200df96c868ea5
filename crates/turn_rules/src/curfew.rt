//! Curfews: whether an airport is closed when a flight would start or land.
//!
//! Each test of a flight goes over the book's curfews, at most 400, since the rules do not tell them by airport.
//! Most are settled by the airport's number alone; the types of the others, at most 20, are then searched.

ghost use Rattle.std.specs.Prelude.{◌≡◌, ◌<◌, length};
ghost use Rattle.std.specs.List.{list_any};
ghost use Rattle.tail_book.specs.Lookup.{activities, aircraft, kind_of, from_port, to_port, start_of, end_of};
ghost use Rattle.tail_book.specs.inside.Sound.{IsMoment};
ghost use Rattle.tail_book.specs.Curfew.{local_minute, in_window, covers_type, forbids, stops, is_curfewed};

use crate::local_time::local_offset;
use tail_book::limits::DAY;
use tail_book::{Book, Curfew};

/// The minute of the airport's local day, 0 to 1439, at a moment in minutes since 1970-01-01T00:00 UTC.
pub fn local_minute(book: &Book, port: u32, moment: i64) -> i64
    requires port { port < length book.now.rules.airports }
    requires moment { IsMoment moment }
    ensures { result ≡ local_minute book.now port moment }
{
    (moment + local_offset(book, port, moment)).rem_euclid(DAY)
}

/// Whether a local minute lies in the daily window.
pub fn in_window(from: i64, to: i64, minute: i64) -> bool
    ensures { result ≡ in_window from to minute }
{
    (from < to && from <= minute && minute < to) || (to < from && (from <= minute || minute < to))
}

/// Whether a list of types has the type; an empty list means every type.
pub fn covers_type(types: &[u32], kind: u32) -> bool
    ensures { result ≡ covers_type types.now kind }
{
    types.is_empty() || types.contains(&kind)
}

/// Whether a curfew closes this airport to a type at that moment.
fn forbids(book: &Book, curfew: &Curfew, kind: u32, port: u32, moment: i64) -> bool
    requires port { port < length book.now.rules.airports }
    requires moment { IsMoment moment }
    ensures { result ≡ forbids book.now curfew.now kind port moment }
{
    curfew.airport == port
        && covers_type(&curfew.types, kind)
        && in_window(curfew.from, curfew.to, local_minute(book, port, moment))
}

/// Whether a curfew's hours forbid the start of a flight.
fn forbids_start(book: &Book, k: u32, a: u32, curfew: &Curfew) -> bool
    requires aircraft { k < aircraft book.now }
    requires activity { a < activities book.now }
    ensures { result ≡ forbids book.now curfew.now (kind_of book.now k) (from_port book.now a) (start_of book.now a) }
{
    let flight = &book.activities[a as usize];
    forbids(
        book,
        curfew,
        book.tails[k as usize].kind,
        flight.from,
        flight.start,
    )
}

/// Whether a curfew's hours forbid the landing of a flight.
fn forbids_landing(book: &Book, k: u32, a: u32, curfew: &Curfew) -> bool
    requires aircraft { k < aircraft book.now }
    requires activity { a < activities book.now }
    ensures { result ≡ forbids book.now curfew.now (kind_of book.now k) (to_port book.now a) (end_of book.now a) }
{
    let flight = &book.activities[a as usize];
    forbids(
        book,
        curfew,
        book.tails[k as usize].kind,
        flight.to,
        flight.end,
    )
}

/// Whether a curfew keeps an aircraft from a flight, at its start or at its landing.
fn stops(book: &Book, k: u32, a: u32, curfew: &Curfew) -> bool
    requires aircraft { k < aircraft book.now }
    requires activity { a < activities book.now }
    ensures { result ≡ stops book.now k a curfew.now }
{
    (curfew.starts && forbids_start(book, k, a, curfew))
        || (curfew.landings && forbids_landing(book, k, a, curfew))
}

/// Whether one of the curfews keeps an aircraft from a flight.
fn one_stops(book: &Book, k: u32, a: u32, curfews: &[Curfew]) -> bool
    requires aircraft { k < aircraft book.now }
    requires activity { a < activities book.now }
    ensures { result ≡ list_any (stops book.now k a) curfews.now }
{
    curfews.iter().any(|curfew| stops(book, k, a, curfew))
}

/// Whether some curfew keeps an aircraft from an activity; none keeps it from ground time.
pub fn curfewed(book: &Book, k: u32, a: u32) -> bool
    requires aircraft { k < aircraft book.now }
    requires activity { a < activities book.now }
    ensures { result ≡ is_curfewed book.now k a }
{
    book.activities[a as usize].flight && one_stops(book, k, a, &book.rules.curfews)
}
