//! A small book, and the rules at their edges; and books by chance, on which the tables say what the rules say.

ghost use Rattle.std.specs.Prelude.{IsTrue};
ghost use Rattle.tail_book.specs.Place.{IsPlaceOf};

use super::rows::{AIRCRAFT, ActivityRow, BookRows, CurfewRow, FLIGHT, TailRow, first_wrong};
use std::test::Fail;
use tail_book::*;
use turn_rules::*;

mod chance;

const ARN: u32 = 0;

const OSL: u32 = 1;

const JFK: u32 = 2;

const A320: u32 = 0;

const E190: u32 = 1;

// SE-A, an A320, comes in at ARN at 06:00 and avoids JFK; SE-B, an E190, at OSL at 07:30.
const A: u32 = 0;

const B: u32 = 1;

// The activities' numbers.
const F1: u32 = 0;

const G1: u32 = 1;

const F2: u32 = 2;

const F3: u32 = 3;

const F4: u32 = 4;

const F5: u32 = 5;

const F6: u32 = 6;

const S1: u32 = 7;

const S2: u32 = 8;

const S3: u32 = 9;

const BOOK: &BookRows = &BookRows {
    kinds: &[(10, 40), (10, 20)],
    airports: &[(60, 30), (60, 30), (-300, 60)],
    // ARN is closed for landings at night, and OSL for starts of the E190 from 08:00 to 08:30 local time.
    curfews: &[
        CurfewRow {
            airport: ARN,
            hours: (1380, 360),
            types: &[],
            starts: false,
            landings: true,
        },
        CurfewRow {
            airport: OSL,
            hours: (480, 510),
            types: &[E190],
            starts: true,
            landings: false,
        },
    ],
    counters: &[],
    bands: &[],
    tails: &[
        TailRow {
            id: A,
            kind: A320,
            at: ARN,
            ready: 360,
            tags: &[7],
            avoid: &[JFK],
            ..AIRCRAFT
        },
        TailRow {
            id: B,
            kind: E190,
            at: OSL,
            ready: 450,
            ..AIRCRAFT
        },
    ],
    activities: &[
        ActivityRow {
            id: F1,
            leg: (ARN, OSL),
            time: (360, 420),
            ..FLIGHT
        },
        ActivityRow {
            id: G1,
            flight: false,
            leg: (OSL, OSL),
            time: (421, 441),
            ..FLIGHT
        },
        ActivityRow {
            id: F2,
            leg: (OSL, ARN),
            time: (449, 509),
            ..FLIGHT
        },
        ActivityRow {
            id: F3,
            leg: (OSL, ARN),
            time: (450, 510),
            ..FLIGHT
        },
        ActivityRow {
            id: F4,
            leg: (OSL, JFK),
            time: (460, 900),
            ..FLIGHT
        },
        ActivityRow {
            id: F5,
            leg: (JFK, ARN),
            time: (960, 1319),
            ..FLIGHT
        },
        ActivityRow {
            id: F6,
            leg: (JFK, ARN),
            time: (961, 1320),
            ..FLIGHT
        },
        ActivityRow {
            id: S1,
            leg: (OSL, ARN),
            time: (1000, 1010),
            types: &[E190],
            ..FLIGHT
        },
        ActivityRow {
            id: S2,
            leg: (OSL, ARN),
            time: (1001, 1011),
            tags: &[7],
            ..FLIGHT
        },
        ActivityRow {
            id: S3,
            leg: (OSL, ARN),
            time: (1002, 1012),
            types: &[A320, E190],
            tail: Some(B),
            ..FLIGHT
        },
    ],
};

// Whether an aircraft may fly an activity as the row says.
fn may_fly(book: &Book, &(k, a, want): &(u32, u32, bool)) -> bool {
    (k as usize) < book.tails.len()
        && (a as usize) < book.activities.len()
        && allowed(book, k, a) == want
}

// The types first, then tags, preassignment, avoided airports at either end, and the curfews.
#[test]
fn who_may_fly_what(rt: HostRuntime) -> Result<(), Fail> {
    let rows = &[
        (A, F1, true),
        (B, F1, true),
        (A, S1, false),
        (B, S1, true),
        (A, S2, true),
        (B, S2, false),
        (A, S3, false),
        (B, S3, true),
        (A, F4, false),
        (B, F4, true),
        (A, F5, false),
        (B, F5, true),
        (B, F6, false),
    ];
    let wrong = first_wrong(rt.alloc(), BOOK, rows, may_fly)?;
    assert!(rt; wrong.is_none(), "row {wrong:?}");
    Ok(())
}

// Whether a curfew stops an aircraft's flight as the row says.
fn is_curfewed(book: &Book, &(k, a, want): &(u32, u32, bool)) -> bool {
    (k as usize) < book.tails.len()
        && (a as usize) < book.activities.len()
        && curfewed(book, k, a) == want
}

// Landings at ARN, starts at OSL of one type, and ground time while the airport is closed.
#[test]
fn curfews_by_flight(rt: HostRuntime) -> Result<(), Fail> {
    let rows = &[
        (A, F5, false),
        (A, F6, true),
        (B, F2, true),
        (B, F3, false),
        (A, F2, false),
        (B, G1, false),
    ];
    let wrong = first_wrong(rt.alloc(), BOOK, rows, is_curfewed)?;
    assert!(rt; wrong.is_none(), "row {wrong:?}");
    Ok(())
}

fn is_place_of(book: &Book, from: Place) -> bool
    ensures { IsTrue result → IsPlaceOf book.now from }
{
    match from {
        Place::Carry => true,
        Place::After(x) => (x as usize) < book.activities.len(),
    }
}

// An aircraft, a place and an activity; the gap, the turn and whether there is a link.
type Turn = (u32, Place, u32, i64, i64, bool);

// Whether the gap, the turn and the link are as the row says.
fn turns_so(book: &Book, &(k, from, b, stop, least, linked): &Turn) -> bool {
    (k as usize) < book.tails.len()
        && (b as usize) < book.activities.len()
        && is_place_of(book, from)
        && (
            gap(book, k, from, b),
            turn(book, k, from, b),
            link(book, k, from, b),
        ) == (stop, least, linked)
}

// A turn missed by a minute and met exactly, the type's and the airport's the larger one, and none beside ground time.
#[test]
fn turns_to_the_minute(rt: HostRuntime) -> Result<(), Fail> {
    let rows = &[
        (B, Place::After(F1), F2, 29, 30, false),
        (B, Place::After(F1), F3, 30, 30, true),
        (A, Place::After(F1), F3, 30, 40, false),
        (A, Place::After(F1), F4, 40, 40, false),
        (A, Place::After(F1), S2, 581, 40, true),
        (B, Place::After(F1), F4, 40, 30, true),
        (A, Place::After(F1), G1, 1, 0, true),
        (B, Place::After(G1), F3, 9, 0, true),
        (B, Place::After(F4), F5, 60, 60, true),
        (B, Place::After(F4), F3, -450, 60, false),
    ];
    let wrong = first_wrong(rt.alloc(), BOOK, rows, turns_so)?;
    assert!(rt; wrong.is_none(), "row {wrong:?}");
    Ok(())
}

// The carry-in has no turn.
#[test]
fn carry_in_at_once(rt: HostRuntime) -> Result<(), Fail> {
    let rows = &[
        (A, Place::Carry, F1, 0, 0, true),
        (A, Place::Carry, F3, 90, 0, false),
        (B, Place::Carry, F2, -1, 0, false),
        (B, Place::Carry, F3, 0, 0, true),
    ];
    let wrong = first_wrong(rt.alloc(), BOOK, rows, turns_so)?;
    assert!(rt; wrong.is_none(), "row {wrong:?}");
    Ok(())
}
