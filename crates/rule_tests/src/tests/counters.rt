//! A small book, and its counters along routes; and books by chance, on which the table steps as the rules do.

ghost use Rattle.std.specs.Prelude.{◌≡◌, ◌<◌, length};
ghost use Rattle.tail_book.specs.Lookup.{aircraft};

use super::rows::{AIRCRAFT, ActivityRow, BookRows, CounterRow, FLIGHT, TailRow, first_wrong};
use maint_counters::*;
use std::alloc::Global;
use std::test::Fail;
use tail_book::*;
use turn_rules::gap;

mod chance;

const ARN: u32 = 0;

const OSL: u32 = 1;

// The aircraft: SE-A comes in at ARN at 06:00, SE-B at OSL at midnight with 10 minutes flown, 2 landings and 1,000
// minutes of its day gone.
const A: u32 = 0;

const B: u32 = 1;

// The activities' numbers.
const F1: u32 = 0;

const J1: u32 = 1;

const J2: u32 = 2;

const F2: u32 = 3;

const E3: u32 = 4;

const F3: u32 = 5;

const G1: u32 = 6;

const F4: u32 = 7;

const H1: u32 = 8;

// An aircraft type and two airports, in local time an hour ahead of UTC.
const BOOK: &BookRows = &BookRows {
    kinds: &[(10, 30)],
    airports: &[(60, 30), (60, 30)],
    curfews: &[],
    // Two hours between stops of an hour at ARN, two landings between stops of half an hour at OSL, and a day.
    counters: &[
        CounterRow {
            kind: CounterKind::Minutes,
            limit: 120,
            bases: &[ARN],
            stop: 60,
        },
        CounterRow {
            kind: CounterKind::Landings,
            limit: 2,
            bases: &[OSL],
            stop: 30,
        },
        CounterRow {
            kind: CounterKind::Days,
            limit: 1440,
            bases: &[ARN],
            stop: 60,
        },
    ],
    bands: &[],
    tails: &[
        TailRow {
            id: A,
            at: ARN,
            ready: 360,
            carry: &[0, 0, 0],
            ..AIRCRAFT
        },
        TailRow {
            id: B,
            at: OSL,
            ready: 0,
            carry: &[10, 2, 1000],
            ..AIRCRAFT
        },
    ],
    // Flights of an hour, and a check at OSL of two hours that resets the counter of days.
    activities: &[
        ActivityRow {
            id: F1,
            leg: (ARN, OSL),
            time: (360, 420),
            ..FLIGHT
        },
        ActivityRow {
            id: J1,
            leg: (OSL, ARN),
            time: (380, 440),
            ..FLIGHT
        },
        ActivityRow {
            id: J2,
            leg: (OSL, ARN),
            time: (381, 441),
            ..FLIGHT
        },
        ActivityRow {
            id: F2,
            leg: (OSL, ARN),
            time: (450, 510),
            ..FLIGHT
        },
        ActivityRow {
            id: E3,
            leg: (ARN, OSL),
            time: (569, 629),
            ..FLIGHT
        },
        ActivityRow {
            id: F3,
            leg: (ARN, OSL),
            time: (570, 630),
            ..FLIGHT
        },
        ActivityRow {
            id: G1,
            flight: false,
            leg: (OSL, OSL),
            time: (600, 720),
            resets: &[2],
            ..FLIGHT
        },
        ActivityRow {
            id: F4,
            leg: (OSL, ARN),
            time: (660, 720),
            ..FLIGHT
        },
        ActivityRow {
            id: H1,
            leg: (OSL, ARN),
            time: (750, 810),
            ..FLIGHT
        },
    ],
};

// Steps along a route, as far as the limits allow; nothing where an activity is none of the book, or starts too early.
fn walk(book: &Book, k: u32, route: &[u32], values: &mut [i64]) -> Option<bool>
    requires aircraft { k < aircraft book.now }
    requires width { length values.old ≡ length book.now.rules.counters }
{
    start(book, k, values);
    let mut from = Place::Carry;
    for b in route {
        let b = *b;
        if b as usize >= book.activities.len() {
            return None;
        }
        if gap(book, k, from, b) < 0 {
            return None;
        }
        if !step(book, k, from, b, values) {
            return Some(false);
        }
        from = Place::After(b);
    }
    Some(true)
}

// An aircraft and a route, what then stands on the counters, and whether that is within the limits.
type Walk = (u32, &'static [u32], [i64; 3], bool);

fn walks_so(book: &Book, &(k, route, want, within): &Walk) -> bool {
    let mut values = [0; 3];
    (k as usize) < book.tails.len()
        && book.rules.counters.len() == 3
        && walk(book, k, route, &mut values) == Some(within)
        && values == want
}

// Minutes flown, landings and days: cleared by a stop that is just long enough at a base, and not by one a minute
// shorter or elsewhere; limits met exactly and passed by one; a check that resets what it has counted on before.
#[test]
fn counters_along_routes(rt: HostRuntime) -> Result<(), Fail> {
    let rows: &[Walk] = &[
        (A, &[F1], [60, 1, 60], true),
        (A, &[F1, F2], [120, 1, 150], true),
        (A, &[F1, F2, F3], [60, 2, 60], true),
        (A, &[F1, F2, F3, F4], [120, 1, 150], true),
        (A, &[F1, F2, E3], [180, 2, 269], false),
        (B, &[G1], [10, 0, 0], true),
        (B, &[G1, H1], [70, 1, 90], true),
        (B, &[H1], [70, 1, 1810], false),
        (B, &[J1], [70, 1, 1440], true),
        (B, &[J2], [70, 1, 1441], false),
    ];
    let wrong = first_wrong(rt.alloc(), BOOK, rows, walks_so)?;
    assert!(rt; wrong.is_none(), "row {wrong:?}");
    Ok(())
}

// An aircraft, a route, and whether it is legal.
type Route = (u32, &'static [u32], bool);

fn is_judged_so(alloc: Global, book: &Book, &(k, route, want): &Route) -> Result<bool, Memory> {
    let table = StepTable::of(alloc, book)?;
    let mut values = [0; 3];
    Ok(
        (k as usize) < book.tails.len()
            && book.rules.counters.len() == 3
            && is_legal_route(book, &table, k, route, &mut values) == want,
    )
}

// Routes within the limits and past one, by an activity at another airport, by one that starts in the turn, twice by the
// same, by a number that no activity has, and none at all.
#[test]
fn routes_are_judged(rt: HostRuntime) -> Result<(), Fail> {
    let rows: &[Route] = &[
        (A, &[], true),
        (A, &[F1, F2, F3, F4], true),
        (A, &[F1, F2, E3], false),
        (A, &[F1, J1], false),
        (A, &[F1, F1], false),
        (A, &[J1], false),
        (A, &[F1, H1 + 1], false),
        (B, &[G1, H1], true),
        (B, &[H1], false),
        (B, &[J1], true),
        (B, &[J2], false),
        (B, &[4_294_967_295], false),
    ];
    let alloc = rt.alloc();
    let wrong = first_wrong(alloc, BOOK, rows, |book, row| {
        is_judged_so(alloc, book, row) == Ok(true)
    })?;
    assert!(rt; wrong.is_none(), "row {wrong:?}");
    Ok(())
}

// A kind of counter, what the check and a flight from there count on it, and what the flight does where a stop cleared it.
type Amounts = (CounterKind, i64, i64, i64);

fn adds_so(book: &Book, &(kind, check, flight, anew): &Amounts) -> bool {
    book.tails.len() == 2
        && book.activities.len() == 9
        && amount(book, B, Place::Carry, G1, false, kind) == check
        && amount(book, B, Place::Carry, H1, false, kind) == flight
        && amount(book, B, Place::Carry, H1, true, kind) == anew
}

// A check at OSL from 10:00 to 12:00, before which the aircraft has been free since midnight: no minutes flown, no
// landing, and half a day. A flight from there counts as all three, and its days only from its start where a stop
// cleared them.
#[test]
fn what_an_activity_adds(rt: HostRuntime) -> Result<(), Fail> {
    let rows = &[
        (CounterKind::Minutes, 0, 60, 60),
        (CounterKind::Landings, 0, 1, 1),
        (CounterKind::Days, 720, 810, 60),
    ];
    let wrong = first_wrong(rt.alloc(), BOOK, rows, adds_so)?;
    assert!(rt; wrong.is_none(), "row {wrong:?}");
    Ok(())
}

// Whether the stop between the first aircraft's flights to OSL and back clears a counter as the row says.
fn clears_so(book: &Book, &(c, want): &(usize, bool)) -> bool {
    book.tails.len() == 2
        && book.activities.len() == 9
        && book.rules.counters.len() == 3
        && c < 3
        && cleared(book, A, Place::After(F1), F2, &book.rules.counters[c]) == want
}

// A stop of half an hour at OSL clears what OSL is a base of.
#[test]
fn what_clears_a_counter(rt: HostRuntime) -> Result<(), Fail> {
    let rows = &[(0, false), (1, true), (2, false)];
    let wrong = first_wrong(rt.alloc(), BOOK, rows, clears_so)?;
    assert!(rt; wrong.is_none(), "row {wrong:?}");
    Ok(())
}
